//! How a run ends, and the exit status that tells it.
ghost use Rattle.std.specs.Prelude.{◌≡◌};
ghost use Rattle.dv_service.specs.Statuses.{code_of, ending_of};

/// How the program ends: the status that its process exits with. The clauses of `top` say when each comes.
#[derive(Clone, Copy, Debug, PartialEq, Eq)]
pub struct Status(pub u8);

impl Status {
    /// The status of words that are no command.
    pub const BAD_WORDS: Status = Status(2);
}

/// How a run ends.
#[derive(Clone, Copy)]
pub enum Ending {
    Done,
    NotOpened,
    ReadFault,
    WriteFault,
    OutOfMemory,
    InputLimit,
}

impl Ending {
    /// The status that tells it.
    #[tactic(auto, unfolding(crate::specs::Statuses::code_of))]
    pub fn status(self) -> Status
        ensures { result.0 ≡ code_of self }
    {
        match self {
            Ending::Done => Status(0),
            Ending::NotOpened => Status(3),
            Ending::ReadFault => Status(5),
            Ending::WriteFault => Status(6),
            Ending::OutOfMemory => Status(9),
            Ending::InputLimit => Status(10),
        }
    }
}

/// What ends a run while a line is served.
#[derive(Clone, Copy)]
pub enum Stop {
    NotOpened,
    WriteFault,
    OutOfMemory,
}

impl Stop {
    /// The ending that it makes.
    pub fn ending(self) -> Ending
        ensures { result ≡ ending_of self }
    {
        match self {
            Stop::NotOpened => Ending::NotOpened,
            Stop::WriteFault => Ending::WriteFault,
            Stop::OutOfMemory => Ending::OutOfMemory,
        }
    }
}
