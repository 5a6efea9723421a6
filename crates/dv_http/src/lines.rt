//! Whether the ended lines of bytes that begin with no head can still be the lines of one.
ghost use Rattle.std.specs.Prelude.{◌≡◌, ◌≢◌, ◌↔◌, ℕ, ◌++◌, ◌<◌, ◌≤◌, List, length, IsTrue, IfSome, MatchOption};
ghost use Rattle.httparse.specs.Ascii.{crlf_bytes};
ghost use Rattle.httparse.specs.Grammar.{LineEnd, print_end};
ghost use Rattle.dv_http.specs.Head.{IsHead, HasNoHead, AreEmptyLines};
ghost use Rattle.dv_http.specs.Hopeless.{HasBadLines};

use crate::limits::{HEAD_LIMIT, MAX_HEADERS};
use httparse::Status;
use httparse::spans::{EMPTY_HEADER_SPAN, parse_request};
use memchr::memrchr;

// Room for the lines of a head and an empty line.
const DRAFT_ROOM: usize = HEAD_LIMIT + 2;

/// Whether the lines up to the last line feed aren't those of a head that goes on.
pub(crate) fn has_bad_lines(bytes: &[u8]) -> bool
    requires short { length bytes.now ≤ HEAD_LIMIT }
    requires none { HasNoHead bytes.now }
    ensures { IsTrue result ↔ HasBadLines bytes.now }
{
    let Some(last) = memrchr(b'\n', bytes) else {
        return false;
    };
    let lines = &bytes[..=last];
    !are_empty_lines(lines) && !make_a_head(lines)
}

// Whether the bytes are empty lines and nothing else.
fn are_empty_lines(bytes: &[u8]) -> bool
    ensures { IsTrue result ↔ AreEmptyLines bytes.now }
{
    let mut rest = bytes;
    while !rest.is_empty() {
        match after_empty_line(rest) {
            Some(after) => rest = after,
            None => return false,
        }
    }
    true
}

// The bytes after the empty line that they begin with.
fn after_empty_line(bytes: &[u8]) -> Option<&[u8]>
    ensures begins { MatchOption result ((end : LineEnd) (after : List ℕ)
        → bytes.now ≢ print_end end ++ after)
        (λ rest. (end : LineEnd) × (bytes.now ≡ print_end end ++ rest.now)) }
    ensures shorter { IfSome result (λ rest. length rest.now < length bytes.now) }
{
    match bytes {
        [b'\n', rest @ ..] => Some(rest),
        [b'\r', b'\n', rest @ ..] => Some(rest),
        _ => None,
    }
}

// Whether the lines with an empty line after them are a head.
fn make_a_head(lines: &[u8]) -> bool
    requires { length lines.now ≤ HEAD_LIMIT }
    ensures { IsTrue result ↔ IsHead (lines.now ++ crlf_bytes) }
{
    let mut draft = [0; DRAFT_ROOM];
    let end = lines.len();
    draft[..end].copy_from_slice(lines);
    draft[end] = b'\r';
    draft[end + 1] = b'\n';
    is_head(&draft[..end + 2])
}

// Whether the bytes are a head and nothing else.
fn is_head(bytes: &[u8]) -> bool
    ensures { IsTrue result ↔ IsHead bytes.now }
{
    let mut headers = [EMPTY_HEADER_SPAN; MAX_HEADERS];
    match parse_request(bytes, &mut headers) {
        Ok(Status::Complete(head)) => head.len == bytes.len(),
        _ => false,
    }
}
