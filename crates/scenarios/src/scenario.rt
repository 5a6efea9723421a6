//! A scenario: lines for the service, what must be answered, and what goes wrong meanwhile.

/// A line of input and the reply that must come, each with its line feed; no reply is the empty list.
#[derive(Drop)]
pub struct Exchange {
    /// Where the line stands in its file.
    pub line: usize,
    pub input: Vec<u8>,
    pub reply: Vec<u8>,
}

/// What goes wrong: the call of an end or of the clock that fails, counted from 1, or the room of the sink in bytes.
#[derive(Clone, Copy)]
pub enum Failure {
    Read(u64),
    Write(u64),
    Clock(u64),
    Room(u64),
}

/// What goes wrong in a scenario, in each of its runs.
#[derive(Clone, Copy)]
pub enum Trouble {
    Nothing,
    Once(Failure),
    /// Each call of `read` fails in a run of its own.
    EveryRead,
    /// Each call of `write` fails in a run of its own.
    EveryWrite,
    /// The sink has each room that is too small, in a run of its own.
    EveryRoom,
}

/// How many bytes the source gives at once, in each of the runs.
#[derive(Drop)]
pub enum Pieces {
    /// Every size from one byte to the whole input.
    Every,
    Sizes(Vec<usize>),
}

#[derive(Drop)]
pub struct Scenario {
    pub name: String,
    /// Where its first line stands in its file.
    pub line: usize,
    pub words: Vec<String>,
    pub pieces: Pieces,
    pub trouble: Trouble,
    /// The moments that the clock gives, one for each call, and the last for good.
    pub moments: Vec<i64>,
    pub exchanges: Vec<Exchange>,
    pub status: u8,
}
