//! One case: its first word says what it is a case of.

use crate::lines::{causes, commands};
use crate::memory::in_memory;
use crate::storages::in_storage;
use crate::text::cut;
use std::alloc::{AllocError, Global};

/// What a line is answered.
pub fn answer(alloc: Global, line: &str) -> Result<String, AllocError> {
    let (kind, rest) = cut(line);
    match kind {
        "run" | "stopped" | "table" => in_storage(alloc, kind, rest),
        "commands" => commands(alloc, rest),
        "causes" => causes(alloc, rest),
        _ => in_memory(alloc, kind, rest),
    }
}
