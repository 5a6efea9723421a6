//! The bytes that a text of a scenario file stands for. `data/NOTATION.md` tells the notation to the reader.
use case_notation::{Fault, bytes_of};
use std::alloc::{AllocError, Global};
use std::fs;

// The names of the texts that lines include, and the files that have them.
const NAMED: [(&str, &str); 6] = [
    ("account", "definitions/account.json"),
    ("boxes", "definitions/boxes.json"),
    ("linked_office", "definitions/linked_office.json"),
    ("notes", "definitions/notes.json"),
    ("office", "definitions/office.json"),
    ("short_account", "definitions/short_account.json"),
];

/// The texts that lines include by name, in the order of the names.
#[derive(Drop)]
pub struct Definitions {
    texts: Vec<String>,
}

impl Definitions {
    /// Reads the files.
    pub fn read(rt: &HostRuntime) -> Result<Definitions, Fault> {
        let mut texts = Vec::new(rt.alloc());
        for (_, file) in NAMED {
            let laid_out = fs::read_to_string(rt, file)?;
            texts.push(in_one_line(rt.alloc(), laid_out.as_str())?)?;
        }
        Ok(Definitions { texts })
    }

    fn get(&self, name: &str) -> Option<&str> {
        for ((known, _), text) in NAMED.iter().zip(self.texts.iter()) {
            if *known == name {
                return Some(text.as_str());
            }
        }
        None
    }
}

// A text without line breaks and indentation.
fn in_one_line(alloc: Global, laid_out: &str) -> Result<String, AllocError> {
    let mut text = String::new(alloc);
    for line in laid_out.lines() {
        text.push_str(line.trim_start())?;
    }
    Ok(text)
}

/// The bytes of a text, with the definition of the name in place of each `{NAME}`.
pub fn spelled_out(alloc: Global, definitions: &Definitions, text: &str) -> Result<Vec<u8>, Fault> {
    let mut whole = String::new(alloc);
    let mut parts = text.split('{');
    whole.push_str(parts.next().unwrap_or(""))?;
    for part in parts {
        push_part(definitions, part, &mut whole)?;
    }
    bytes_of(alloc, whole.as_str())
}

// Appends what stood behind a brace: a definition and what follows it, or the brace and the text as it stands.
fn push_part(definitions: &Definitions, part: &str, whole: &mut String) -> Result<(), AllocError> {
    if let Some((name, behind)) = part.split_once('}')
        && let Some(definition) = definitions.get(name)
    {
        whole.push_str(definition)?;
        return whole.push_str(behind);
    }
    whole.push_str("{")?;
    whole.push_str(part)
}
