//! Out of memory while a line is served: that line alone is refused, and nothing of it stays.
use dv_base::{ListClock, MemSink, MemSource};
use dv_service::{Status, top};
use std::test::Fail;

// A definition, a creation, a query, a creation and a query.
const LINES: &[u8] =
    b"{\"root\":\"00000000-0000-0000-0000-000000000064\",\"admin\":\"00000000-0000-0000-0000-000000000065\",\"tables\":[{\"name\":\"account\",\"owned\":\"user\",\"columns\":[{\"name\":\"name\",\"type\":\"text\",\"max\":100}]}]}
{\"caller\":\"00000000-0000-0000-0000-000000000065\",\"do\":\"create\",\"table\":\"account\",\"values\":{\"name\":\"Ann\"}}
{\"caller\":\"00000000-0000-0000-0000-000000000065\",\"do\":\"query\",\"table\":\"account\",\"columns\":[\"name\"]}
{\"caller\":\"00000000-0000-0000-0000-000000000065\",\"do\":\"create\",\"table\":\"account\",\"values\":{\"name\":\"Ann\"}}
{\"caller\":\"00000000-0000-0000-0000-000000000065\",\"do\":\"query\",\"table\":\"account\",\"columns\":[\"name\"]}
";

const OPENED: &[u8] = b"{\"ok\":{\"tables\":1}}\n";

const FIRST: &[u8] = b"{\"ok\":{\"id\":\"00000000-0000-0000-0000-000000000001\"}}\n";

const SECOND: &[u8] = b"{\"ok\":{\"id\":\"00000000-0000-0000-0000-000000000002\"}}\n";

const NONE_SHOWN: &[u8] =
    b"{\"ok\":{\"cookie\":null,\"more\":false,\"over\":null,\"rows\":[],\"total\":null}}\n";

const ONE_SHOWN: &[u8] =
    b"{\"ok\":{\"cookie\":null,\"more\":false,\"over\":null,\"rows\":[{\"id\":\"00000000-0000-0000-0000-000000000001\",\"name\":\"Ann\"}],\"total\":null}}\n";

const BOTH_SHOWN: &[u8] =
    b"{\"ok\":{\"cookie\":null,\"more\":false,\"over\":null,\"rows\":[{\"id\":\"00000000-0000-0000-0000-000000000001\",\"name\":\"Ann\"},{\"id\":\"00000000-0000-0000-0000-000000000002\",\"name\":\"Ann\"}],\"total\":null}}\n";

const NO_MEMORY: &[u8] = b"{\"refused\":{\"nr\":62}}\n";

// What is answered to the lines: all of them, or all but one that met a failed allocation.
const ANSWERED: &[[&[u8]; 5]] = &[
    [OPENED, FIRST, ONE_SHOWN, SECOND, BOTH_SHOWN],
    [OPENED, NO_MEMORY, NONE_SHOWN, FIRST, ONE_SHOWN],
    [OPENED, FIRST, NO_MEMORY, SECOND, BOTH_SHOWN],
    [OPENED, FIRST, ONE_SHOWN, NO_MEMORY, ONE_SHOWN],
    [OPENED, FIRST, ONE_SHOWN, SECOND, NO_MEMORY],
];

// Whether the bytes are these parts, one after another.
fn are_parts(bytes: &[u8], parts: &[&[u8]]) -> bool {
    let mut rest = bytes;
    for part in parts {
        match rest.strip_prefix(*part) {
            Some(behind) => rest = behind,
            None => return false,
        }
    }
    rest.is_empty()
}

// Holds in an ordinary run, and with `rt try --test --fail-alloc N` for each N.
#[test]
fn a_line_refused_for_memory_leaves_the_others_served(rt: HostRuntime) -> Result<(), Fail> {
    let alloc = rt.alloc();
    let mut words = Vec::new(alloc);
    words.push(String::from_str(alloc, "run")?)?;
    let mut source = MemSource::new(Vec::from_slice(alloc, LINES)?);
    let mut sink = MemSink::new(alloc, 1_000)?;
    let mut clock = ListClock::new(Vec::new(alloc), 0);
    let words = words.as_slice();
    let Status(code) = top(alloc, words, &mut source, &mut sink, &mut clock);
    if code == 9 {
        assert!(rt; sink.bytes().is_empty());
        return Ok(());
    }
    assert_eq!(rt; code, 0);
    assert!(rt; ANSWERED.iter().any(|parts| are_parts(sink.bytes(), parts)));
    Ok(())
}
