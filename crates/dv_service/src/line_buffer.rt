//! The front of the line that has not ended yet.
ghost use Rattle.std.specs.Prelude.{◌≤◌, vec_capacity};
ghost use Rattle.dv_service.specs.declared.line_buffer.TheConstants.{ROOM};

use std::alloc::{AllocError, Global};

/// The longest line that is read, in bytes.
pub const LINE_LIMIT: usize = 1_048_576;

/// How many bytes of a line are held: one more than are read, which tells that there are too many.
pub const ROOM: usize = 1_048_577;

/// The front of the open line. Its room is reserved once, so that holding a line takes no memory.
#[derive(Drop)]
pub struct LineBuffer {
    pub bytes: Vec<u8>,
    pub has_content: bool,
    ghost room: { ROOM ≤ vec_capacity bytes },
}

impl LineBuffer {
    ghost use Rattle.std.specs.Prelude.{◌≡◌, ◌++◌, [], ◌∷◌, List, ℕ, IfOk, option_map};
    ghost use Rattle.dv_service.specs.Lines.{within_limit};
    ghost use Rattle.dv_service.specs.Sessions.{IsHeld};

    /// Reserves the room.
    pub fn new(alloc: Global) -> Result<LineBuffer, AllocError>
        ensures { IfOk result (λ buffer. IsHeld buffer []) }
    {
        Ok(LineBuffer {
            bytes: Vec::with_capacity(alloc, ROOM)?,
            has_content: false,
        })
    }

    /// Takes the next byte of the line.
    pub fn add(&mut self, byte: u8)
        ensures { (line : List ℕ) → IsHeld self.old line → IsHeld self.new (line ++ byte ∷ []) }
    {
        push_within(&mut self.bytes, ROOM, byte);
        self.has_content |= !is_blank(byte);
    }

    /// Begins the next line.
    pub fn clear(&mut self)
        ensures { IsHeld self.new [] }
    {
        self.bytes.clear();
        self.has_content = false;
    }

    /// The line, unless it is above the limit.
    pub fn line(&self) -> Option<&[u8]>
        ensures { (line : List ℕ) → IsHeld self.now line
            → option_map (λ held. held.now) result ≡ within_limit line }
    {
        let front = self.bytes.as_slice();
        if front.len() <= LINE_LIMIT {
            Some(front)
        } else {
            None
        }
    }
}

ghost use Rattle.std.specs.Prelude.{◌≡◌, ◌++◌, [], ◌∷◌, length, nat_lt, if◌then◌else◌};
ghost use Rattle.dv_service.specs.Lines.{is_blank_byte};

fn is_blank(byte: u8) -> bool
    ensures { result ≡ is_blank_byte byte }
{
    byte == b' ' || byte == b'\t' || byte == b'\r'
}

// Adds a byte while there are fewer than so many.
fn push_within(bytes: &mut Vec<u8>, room: usize, byte: u8)
    requires { room ≤ vec_capacity bytes.old }
    ensures items { bytes.new.items ≡ (if nat_lt (length bytes.old.items) room
        then bytes.old.items ++ byte ∷ [] else bytes.old.items) }
    ensures room { room ≤ vec_capacity bytes.new }
{
    if bytes.len() < room {
        let _ = bytes.push(byte);
    }
}
