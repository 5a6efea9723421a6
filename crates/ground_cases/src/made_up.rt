//! Made-up inputs of HTTP messages: a dozen pieces each, picked by a generator whose seed is the input's number.
use crate::http::differs;
use case_notation::Fault;
use std::alloc::{AllocError, Global};

const PIECES: [&[u8]; 16] = [
    b"\r\n",
    b"\n",
    b"\r",
    b" ",
    b":",
    b"POST / HTTP/1.1\r\n",
    b"GET",
    b"/",
    b"HTTP/1.0",
    b"Content-Length: 2\r\n",
    b"Content-Length:",
    b"3",
    b"Connection: close\r\n",
    b"\r\n\r\n",
    b"x",
    b"\t\xff",
];

/// How many of so many made-up inputs tell something else where they are cut.
pub fn differing(alloc: Global, input: &str) -> Result<String, Fault> {
    let mut differing = 0u32;
    for seed in 0..input.parse::<u32>()? {
        if differs(alloc, made_up(alloc, seed)?.as_slice())? {
            differing = differing.saturating_add(1);
        }
    }
    Ok(differing.to_string(alloc)?)
}

fn made_up(alloc: Global, seed: u32) -> Result<Vec<u8>, AllocError> {
    let mut bytes = Vec::new(alloc);
    let mut state = seed;
    for _ in 0..12 {
        state = state.wrapping_mul(1_664_525).wrapping_add(1_013_904_223);
        bytes.extend_from_slice(PIECES.get((state >> 28) as usize).copied().unwrap_or(&[]))?;
    }
    Ok(bytes)
}
