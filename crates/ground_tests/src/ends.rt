// The ends of streams, in memory and over those of std.
use dv_base::{Ends, Failed, MemSink, MemSource, Sink, Source, StdSink, StdSource, send};
use std::io::{self, Cursor, ErrorKind, Read};
use std::test::Fail;

// Each `unwrap` is proved: the contracts say that these calls don't fail.
#[test]
fn ends_in_memory_are_proved_not_to_fail_unasked(rt: HostRuntime) -> Result<(), Fail> {
    let mut source = MemSource::new(b"abc".to_vec(rt.alloc())?);
    let mut buffer = [0; 2];
    assert_eq!(rt; source.read(&mut buffer).unwrap(), 2);
    assert_eq!(rt; source.read(&mut buffer).unwrap(), 1);
    let mut sink = MemSink::new(rt.alloc(), 4)?;
    assert_eq!(rt; sink.write(b"ab").unwrap(), 2);
    assert_eq!(rt; sink.write(b"cd").unwrap(), 2);
    Ok(())
}

// A sink that takes at most so many bytes at a time, and one at least.
#[derive(Drop)]
struct NarrowSink {
    inner: MemSink,
    width: usize,
}

impl Ends for NarrowSink {
    ghost use Rattle.std.specs.Prelude.{Some, None};

    ghost left = { λ s. None };

    ghost written = { λ s. Some s.inner.written };

    ghost read_faults = { λ s. 0 };

    ghost write_faults = { λ s. s.inner.faults };
}

impl Sink for NarrowSink {
    fn write(&mut self, bytes: &[u8]) -> Result<usize, Failed> {
        self.inner
            .write(&bytes[..bytes.len().min(self.width.max(1))])
    }
}

// Three pieces to a sink in memory of a width, whose call of this number fails (0: none): which of them were sent, and
// what is written then.
const SENDINGS: &[(usize, u64, [&str; 3], [bool; 3], &str)] = &[
    (8, 0, ["ab", "cd", "ef"], [true, true, true], "abcdef"),
    (8, 2, ["ab", "cd", "ef"], [true, false, true], "abef"),
    (2, 0, ["abcde", "", "f"], [true, true, true], "abcdef"),
    (2, 2, ["abcde", "", "f"], [false, true, true], "abf"),
    (2, 3, ["abcde", "", "f"], [false, true, true], "abcdf"),
];

#[test]
fn a_piece_is_sent_whole_over_short_writes_or_cut_at_the_failing_call(
    rt: HostRuntime,
) -> Result<(), Fail> {
    for (width, failing_call, pieces, sent, written) in SENDINGS {
        let mut sink = NarrowSink {
            inner: MemSink::failing(rt.alloc(), 8, *failing_call)?,
            width: *width,
        };
        let [first, second, third] = *pieces;
        let whole = [
            send(&mut sink, first.as_bytes()).is_ok(),
            send(&mut sink, second.as_bytes()).is_ok(),
            send(&mut sink, third.as_bytes()).is_ok(),
        ];
        assert_eq!(rt; whole, *sent, "of {written}");
        assert_eq!(rt; sink.inner.bytes(), written.as_bytes());
    }
    Ok(())
}

// A reader that only refuses.
#[derive(Drop)]
struct Refusing;

impl Read for Refusing {
    fn read(&mut self, _buf: &mut [u8]) -> io::Result<usize> {
        Err(ErrorKind::BrokenPipe.into())
    }
}

#[test]
fn a_reader_is_read_over_short_reads_until_it_refuses(rt: HostRuntime) -> Result<(), Fail> {
    let mut source = StdSource::new(b"abc".as_slice().chain(b"d".as_slice()).chain(Refusing));
    let mut buffer = [0; 2];
    for front in [b"ab".as_slice(), b"c", b"d"] {
        let count = source.read(&mut buffer)?;
        assert_eq!(rt; &buffer[..count], front);
    }
    assert_eq!(rt; source.read(&mut buffer), Err(Failed));
    Ok(())
}

#[test]
fn a_writer_that_takes_nothing_more_is_a_fault(rt: HostRuntime) {
    let mut room = Cursor::new([0; 3]);
    let mut sink = StdSink::new(&mut room);
    assert_eq!(rt; send(&mut sink, b"ab"), Ok(()));
    assert_eq!(rt; send(&mut sink, b"cd"), Err(Failed));
    assert_eq!(rt; sink.write(b""), Ok(0));
    assert_eq!(rt; room.into_inner(), *b"abc");
}
