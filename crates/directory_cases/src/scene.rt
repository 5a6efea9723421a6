//! A definition and the directory that it begins with.
use case_notation::{Fault, bytes_of};
use dv_meta::{Definition, read_definition};
use dv_roles::Directory;
use std::fs;

// The definition that the cases begin with.
const BASE: &str = "office.json";

#[derive(Drop)]
pub struct Scene {
    pub definition: Definition,
    pub directory: Directory,
}

impl Scene {
    /// The directory of the definition.
    pub fn new(rt: &HostRuntime) -> Result<Scene, Fault> {
        let text = fs::read_to_string(rt, BASE)?;
        let bytes = bytes_of(rt.alloc(), text.as_str())?;
        let Ok(definition) = read_definition(rt.alloc(), bytes.as_slice(), 0) else {
            return Err(Fault::Wrong("the definition isn't accepted"));
        };
        let Ok(directory) = Directory::begin(rt.alloc(), &definition) else {
            return Err(Fault::Wrong("the directory isn't begun"));
        };
        Ok(Scene {
            definition,
            directory,
        })
    }
}
