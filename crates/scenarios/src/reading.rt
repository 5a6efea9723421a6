//! Reads a scenario file line by line. Whatever it can't read is an error: no scenario is dropped in silence.
use crate::draft::{Answered, Draft, exchanges_of};
use crate::including::Definitions;
use crate::scenario::{Exchange, Failure, Pieces, Scenario, Trouble};
use case_notation::{Fault, behind_blank, joined};
use std::alloc::Global;
use std::mem;

/// A scenario as far as it was read.
#[derive(Drop)]
pub struct Reader {
    // Empty between two scenarios.
    name: String,
    line: usize,
    words: Vec<String>,
    pieces: Pieces,
    trouble: Trouble,
    moments: Vec<i64>,
    is_unended: bool,
    times: Option<u32>,
    drafts: Vec<Draft>,
}

impl Reader {
    /// A reader between two scenarios. `run` is the command line, and pieces are of a few sizes.
    pub fn new(alloc: Global) -> Result<Self, Fault> {
        Ok(Reader {
            name: String::new(alloc),
            line: 0,
            words: words_of(alloc, "run")?,
            pieces: Pieces::Sizes(Vec::from_slice(alloc, &[1, 7, 4_096])?),
            trouble: Trouble::Nothing,
            moments: Vec::new(alloc),
            is_unended: false,
            times: None,
            drafts: Vec::new(alloc),
        })
    }

    /// Whether a scenario was begun and has not come to its status.
    pub fn is_open(&self) -> bool {
        !self.name.is_empty()
    }

    /// Takes a line, and gives the scenario that ends with it.
    pub fn take(
        &mut self,
        alloc: Global,
        definitions: &Definitions,
        at: usize,
        line: &str,
    ) -> Result<Option<Scenario>, Fault> {
        if line.is_empty() || line == "#" || line.starts_with("# ") {
            return Ok(None);
        }
        if let Some(name) = line.strip_prefix("scenario ") {
            self.begin(alloc, at, name)?;
            return Ok(None);
        }
        if !self.is_open() {
            return Err(Fault::Wrong("a line outside a scenario"));
        }
        if let Some(status) = line.strip_prefix("status ") {
            let status = status.parse::<u8>()?;
            return Ok(Some(self.finish(alloc, definitions, status)?));
        }
        self.take_line(alloc, at, line)?;
        Ok(None)
    }

    fn begin(&mut self, alloc: Global, at: usize, name: &str) -> Result<(), Fault> {
        let was_open = self.is_open();
        *self = Reader::new(alloc)?;
        self.name.push_str(name)?;
        self.line = at;
        if was_open {
            return Err(Fault::Wrong("the scenario before has no status"));
        }
        Ok(())
    }

    // Takes a line of input, of a reply, or of directions.
    fn take_line(&mut self, alloc: Global, at: usize, line: &str) -> Result<(), Fault> {
        if let Some(input) = line.strip_prefix('>') {
            return self.add_input(alloc, at, behind_blank(input));
        }
        if let Some(request) = line.strip_prefix('#') {
            return self.add_request(alloc, at, request);
        }
        if line == "-" {
            return self.set_reply(Answered::Nothing, "");
        }
        if let Some(reply) = line.strip_prefix("= ") {
            return self.set_reply(Answered::Line, reply);
        }
        if line.starts_with(' ') {
            return self.go_on(line.trim_start());
        }
        self.direct(alloc, line)
    }

    fn add_input(&mut self, alloc: Global, line: usize, input: &str) -> Result<(), Fault> {
        if let Some(last) = self.drafts.last()
            && let Answered::Open = last.answered
        {
            return Err(Fault::Wrong("no reply to the line before"));
        }
        let draft = Draft::new(alloc, line, self.times, input)?;
        self.drafts.push(draft)?;
        self.times = None;
        Ok(())
    }

    // Adds `n> {..}`: the request with the caller of id n.
    fn add_request(&mut self, alloc: Global, line: usize, request: &str) -> Result<(), Fault> {
        let Some((caller, members)) = request.split_once("> {") else {
            return Err(Fault::Wrong("no request"));
        };
        let input = joined(alloc, &["{\"caller\":\"#", caller, "\",", members])?;
        self.add_input(alloc, line, input.as_str())
    }

    fn set_reply(&mut self, answered: Answered, reply: &str) -> Result<(), Fault> {
        match self.drafts.last_mut() {
            Some(last) => last.answer(answered, reply),
            None => Err(Fault::Wrong("a reply without a line")),
        }
    }

    // Appends the text to the line or the reply that was taken last.
    fn go_on(&mut self, text: &str) -> Result<(), Fault> {
        match self.drafts.last_mut() {
            Some(last) => last.go_on(text),
            None => Err(Fault::Wrong("nothing to go on with")),
        }
    }

    // Takes a line that says how the scenario is run.
    fn direct(&mut self, alloc: Global, line: &str) -> Result<(), Fault> {
        if let Some(words) = line.strip_prefix("words") {
            self.words = words_of(alloc, words)?;
        } else if let Some(sizes) = line.strip_prefix("pieces ") {
            self.pieces = pieces_of(alloc, sizes)?;
        } else if let Some(moments) = line.strip_prefix("moments ") {
            self.moments = moments_of(alloc, moments)?;
        } else if let Some(times) = line.strip_prefix("times ") {
            self.times = Some(times.parse::<u32>()?);
        } else if line == "the last line is not ended" {
            self.is_unended = true;
        } else {
            self.set_trouble(trouble_of(line)?)?;
        }
        Ok(())
    }

    fn set_trouble(&mut self, trouble: Trouble) -> Result<(), Fault> {
        match self.trouble {
            Trouble::Nothing => {
                self.trouble = trouble;
                Ok(())
            }
            _ => Err(Fault::Wrong("a second trouble")),
        }
    }

    // The scenario that was read. The reader stands between two scenarios again.
    fn finish(
        &mut self,
        alloc: Global,
        definitions: &Definitions,
        status: u8,
    ) -> Result<Scenario, Fault> {
        let read = mem::replace(self, Reader::new(alloc)?);
        let mut exchanges = exchanges_of(alloc, definitions, read.drafts.as_slice())?;
        if read.is_unended {
            drop_line_feed(exchanges.last_mut())?;
        }
        Ok(Scenario {
            name: read.name,
            line: read.line,
            words: read.words,
            pieces: read.pieces,
            trouble: read.trouble,
            moments: read.moments,
            exchanges,
            status,
        })
    }
}

fn drop_line_feed(last: Option<&mut Exchange>) -> Result<(), Fault> {
    match last {
        Some(exchange) => {
            let _line_feed = exchange.input.pop();
            Ok(())
        }
        None => Err(Fault::Wrong("no line that is not ended")),
    }
}

// The words of a line.
fn words_of(alloc: Global, line: &str) -> Result<Vec<String>, Fault> {
    let mut words = Vec::new(alloc);
    for word in line.split_whitespace() {
        words.push(String::from_str(alloc, word)?)?;
    }
    Ok(words)
}

// `of every size`, or sizes.
fn pieces_of(alloc: Global, line: &str) -> Result<Pieces, Fault> {
    if line == "of every size" {
        return Ok(Pieces::Every);
    }
    let mut sizes = Vec::new(alloc);
    for word in line.split_whitespace() {
        sizes.push(word.parse::<usize>()?)?;
    }
    if sizes.is_empty() {
        return Err(Fault::Wrong("no size of pieces"));
    }
    Ok(Pieces::Sizes(sizes))
}

// Moments in seconds since 1970.
fn moments_of(alloc: Global, line: &str) -> Result<Vec<i64>, Fault> {
    let mut moments = Vec::new(alloc);
    for word in line.split_whitespace() {
        moments.push(word.parse::<i64>()?)?;
    }
    Ok(moments)
}

// What a line says that goes wrong.
fn trouble_of(line: &str) -> Result<Trouble, Fault> {
    match line {
        "every read fails" => return Ok(Trouble::EveryRead),
        "every write fails" => return Ok(Trouble::EveryWrite),
        "every room is too small" => return Ok(Trouble::EveryRoom),
        _ => {}
    }
    let (words, number) = line.rsplit_once(' ').unwrap_or((line, ""));
    let failure = match words {
        "read fails at call" => Failure::Read(number.parse::<u64>()?),
        "write fails at call" => Failure::Write(number.parse::<u64>()?),
        "clock fails at call" => Failure::Clock(number.parse::<u64>()?),
        "room" => Failure::Room(number.parse::<u64>()?),
        _ => return Err(Fault::Wrong("an unknown line")),
    };
    Ok(Trouble::Once(failure))
}
