//! What Rust prints of a value, shorter: a text is written "t" and a list [..].
use std::alloc::{AllocError, Global};

/// What was printed, without the structs around texts and lists.
pub fn without_wrappings(alloc: Global, printed: &str) -> Result<String, AllocError> {
    printed
        .replace(alloc, "Text { inner: \"", "\"")?
        .replace(alloc, "\" }", "\"")?
        .replace(alloc, "Items { items: [", "[")?
        .replace(alloc, "] }", "]")
}
