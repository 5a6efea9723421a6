//! The headers that the service reads: those that frame the body, `Caller` and `Connection`.
ghost use Rattle.std.specs.Prelude.{◌≡◌, ◌↔◌, [], ◌∷◌, ◌<◌, ◌≤◌, List, length, map, All, Some, None, MatchOption, IfSome, IsTrue};
ghost use Rattle.std.specs.Char.{to_ascii_lowercase};
ghost use Rattle.httparse.specs.declared.spans.HeaderSpan.{HeaderSpan};
ghost use Rattle.httparse.specs.Spans.{IsHeaderWithin, header_bytes};
ghost use Rattle.dv_http.specs.Headers.{values_of, length_of, body_len, asks_to_close, caller_of};

use crate::limits::{MAX_BODY, MAX_LENGTH_DIGITS};
use httparse::spans::HeaderSpan;

// A header that was looked for: its value, and the headers after it.
#[derive(Clone, Copy)]
struct Found<'b, 'h> {
    value: &'b [u8],
    rest: &'h [HeaderSpan],
}

// Whether two words are the same in any case.
fn is_same_word(a: &[u8], b: &[u8]) -> bool
    ensures { IsTrue result ↔ (map to_ascii_lowercase a.now ≡ map to_ascii_lowercase b.now) }
{
    a.eq_ignore_ascii_case(b)
}

// The first header of that name.
fn find<'b, 'h>(bytes: &'b [u8], headers: &'h [HeaderSpan], name: &[u8]) -> Option<Found<'b, 'h>>
    requires { All (IsHeaderWithin (length bytes.now)) headers.now }
    ensures within { IfSome result
        (λ found. All (IsHeaderWithin (length bytes.now)) found.rest.now) }
    ensures value { let values = λ (some : List HeaderSpan).
        values_of name.now (map (header_bytes bytes.now) some) in
        MatchOption result (values headers.now ≡ [])
        (λ found. values headers.now ≡ found.value.now ∷ values found.rest.now) }
    ensures shorter { IfSome result (λ found. length found.rest.now < length headers.now) }
{
    for (at, header) in headers.iter().enumerate() {
        if is_same_word(header.name.of(bytes), name) {
            return Some(Found {
                value: header.value.of(bytes),
                rest: &headers[at + 1..],
            });
        }
    }
    None
}

// The number of a `Content-Length`.
fn length_of(text: &[u8]) -> Option<usize>
    ensures { result ≡ length_of text.now }
{
    if text.is_empty() || MAX_LENGTH_DIGITS < text.len() {
        return None;
    }
    let mut number = 0;
    for byte in text {
        if !byte.is_ascii_digit() {
            return None;
        }
        number = number * 10 + usize::from(*byte - b'0');
    }
    if number <= MAX_BODY {
        Some(number)
    } else {
        None
    }
}

/// The length of the body that the headers announce, and `None` where they break the profile.
pub(crate) fn body_len(bytes: &[u8], headers: &[HeaderSpan]) -> Option<usize>
    requires { All (IsHeaderWithin (length bytes.now)) headers.now }
    ensures { result ≡ body_len (map (header_bytes bytes.now) headers.now) }
{
    let None = find(bytes, headers, b"transfer-encoding") else {
        return None;
    };
    let Some(length) = find(bytes, headers, b"content-length") else {
        return Some(0);
    };
    let None = find(bytes, length.rest, b"content-length") else {
        return None;
    };
    length_of(length.value)
}

/// The value of the first `Caller` header.
pub(crate) fn caller<'b>(bytes: &'b [u8], headers: &[HeaderSpan]) -> Option<&'b [u8]>
    requires { All (IsHeaderWithin (length bytes.now)) headers.now }
    ensures { let caller = caller_of (map (header_bytes bytes.now) headers.now) in
        MatchOption result (caller ≡ None) (λ value. caller ≡ Some value.now) }
{
    match find(bytes, headers, b"caller") {
        Some(caller) => Some(caller.value),
        None => None,
    }
}

/// Whether a `Connection` header has the whole value `close`.
pub(crate) fn asks_to_close(bytes: &[u8], headers: &[HeaderSpan]) -> bool
    requires { All (IsHeaderWithin (length bytes.now)) headers.now }
    ensures { result ≡ asks_to_close (map (header_bytes bytes.now) headers.now) }
{
    let mut rest = headers;
    while let Some(connection) = find(bytes, rest, b"connection") {
        if is_same_word(connection.value, b"close") {
            return true;
        }
        rest = connection.rest;
    }
    false
}
