//! The message at the front of the bytes.
ghost use Rattle.std.specs.Prelude.{◌≡◌, ◌↔◌, ℕ, ◌+◌, ◌^◌, ◌<◌, ◌≤◌, length, take, map, All, IfOk, IfSome, IfNone};
ghost use Rattle.httparse.specs.Grammar.{RequestHead};
ghost use Rattle.httparse.specs.Spans.{IsHeaderWithin, header_bytes};
ghost use Rattle.dv_http.specs.declared.message.HttpMessage.{HttpMessage};
ghost use Rattle.dv_http.specs.Head.{HasNoHead};
ghost use Rattle.dv_http.specs.Headers.{caller_of};
ghost use Rattle.dv_http.specs.Message.{BeginsWithMessage, message_of};
ghost use Rattle.dv_http.specs.Hopeless.{IsHopeless, IsUnfinished};
ghost use Rattle.dv_http.specs.Reading.{AreWithin, CoverHead, IsHeardAfter, IsHeardWithout};

use crate::headers::{asks_to_close, body_len, caller};
use crate::limits::{HEAD_LIMIT, MAX_HEADERS};
use crate::lines::has_bad_lines;
use crate::message::{Bytes, Heard, HttpMessage};
use httparse::Status;
use httparse::spans::{EMPTY_HEADER_SPAN, HeaderSpan, RequestSpans, parse_request};
use std::alloc::{AllocError, Global};

/// What the bytes begin with: a whole message, no message yet, or nothing that a message can come of.
///
/// A call reads the first 16,384 bytes at most, and copies the body of a whole message, so a long body that comes in
/// many pieces costs its head for each piece. Memory is taken for a whole message alone.
pub fn next_message(alloc: Global, bytes: &[u8]) -> Result<Heard, AllocError>
    ensures whole { IfOk result (λ heard. (message : HttpMessage) (used : ℕ)
        → (heard ≡ Heard.Whole message used) ↔ BeginsWithMessage bytes.now message used) }
    ensures bad { IfOk result (λ heard. (heard ≡ Heard.Bad) ↔ IsHopeless bytes.now) }
    ensures not_yet { IfOk result (λ heard. (heard ≡ Heard.NotYet) ↔ IsUnfinished bytes.now) }
{
    let window = &bytes[..bytes.len().min(HEAD_LIMIT)];
    let mut headers = [EMPTY_HEADER_SPAN; MAX_HEADERS];
    let Some(head) = read_head(window, &mut headers) else {
        return Ok(without_head(window));
    };
    Ok(with_body(
        alloc,
        window,
        &bytes[head.len..],
        &head,
        &headers[..head.headers],
    )?)
}

// The head at the front of the bytes, with its headers at the front of `headers`.
fn read_head(bytes: &[u8], headers: &mut [HeaderSpan]) -> Option<RequestSpans>
    requires { length headers.old ≡ MAX_HEADERS }
    ensures none { IfNone result (HasNoHead bytes.now) }
    ensures count { IfSome result (λ spans. spans.headers ≤ MAX_HEADERS) }
    ensures within { IfSome result
        (λ spans. AreWithin bytes.now (take spans.headers headers.new) spans) }
    ensures covers { IfSome result (λ spans. (head : RequestHead)
        × CoverHead bytes.now (take spans.headers headers.new) spans head) }
{
    match parse_request(bytes, headers) {
        Ok(Status::Complete(head)) => Some(head),
        _ => None,
    }
}

// What is heard of the first bytes, which begin with no head.
fn without_head(bytes: &[u8]) -> Heard
    requires short { length bytes.now ≤ HEAD_LIMIT }
    requires none { HasNoHead bytes.now }
    ensures { IsHeardWithout bytes.now result }
{
    if bytes.len() == HEAD_LIMIT || has_bad_lines(bytes) {
        Heard::Bad
    } else {
        Heard::NotYet
    }
}

// What is heard of the head at the front of the bytes and of what follows it.
fn with_body(
    alloc: Global,
    bytes: &[u8],
    after: &[u8],
    head: &RequestSpans,
    headers: &[HeaderSpan],
) -> Result<Heard, AllocError>
    requires within { AreWithin bytes.now headers.now head.now }
    requires fits { head.now.len + length after.now < 2 ^ 64 }
    ensures { IfOk result (λ heard. (read : RequestHead)
        → CoverHead bytes.now headers.now head.now read
        → IsHeardAfter read after.now heard) }
{
    let Some(body) = body_len(bytes, headers) else {
        return Ok(Heard::Bad);
    };
    if after.len() < body {
        return Ok(Heard::NotYet);
    }
    let message = copy_message(alloc, bytes, head, headers, &after[..body])?;
    Ok(Heard::Whole {
        message,
        used: head.len + body,
    })
}

// The message of the head and the body.
fn copy_message(
    alloc: Global,
    bytes: &[u8],
    head: &RequestSpans,
    headers: &[HeaderSpan],
    body: &[u8],
) -> Result<HttpMessage, AllocError>
    requires { AreWithin bytes.now headers.now head.now }
    ensures { IfOk result (λ message. (read : RequestHead)
        → CoverHead bytes.now headers.now head.now read
        → message ≡ message_of read body.now) }
{
    let method = Bytes::from_slice(alloc, head.method.of(bytes))?;
    let target = Bytes::from_slice(alloc, head.path.of(bytes))?;
    let caller = copy_caller(alloc, bytes, headers)?;
    let body = Bytes::from_slice(alloc, body)?;
    Ok(HttpMessage {
        method,
        target,
        caller,
        closes: head.version == 0 || asks_to_close(bytes, headers),
        body,
    })
}

// The value of the first `Caller` header.
fn copy_caller(
    alloc: Global,
    bytes: &[u8],
    headers: &[HeaderSpan],
) -> Result<Option<Bytes>, AllocError>
    requires { All (IsHeaderWithin (length bytes.now)) headers.now }
    ensures { IfOk result (λ caller. caller
        ≡ caller_of (map (header_bytes bytes.now) headers.now)) }
{
    match caller(bytes, headers) {
        Some(value) => Ok(Some(Bytes::from_slice(alloc, value)?)),
        None => Ok(None),
    }
}
