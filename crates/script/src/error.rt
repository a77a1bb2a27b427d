//! What is wrong with a script.
use lines::Fault;
use std::fmt;
use thiserror::Error;

/// The first line of a script that cannot be read, counted from 1.
#[derive(Clone, Copy, Error)]
#[error("line {line}: {fault}")]
pub struct ScriptError<'a> {
    pub line: usize,
    pub fault: Fault<'a>,
}

/// The message itself, as a fault has it.
impl fmt::Debug for ScriptError<'_> {
    fn fmt<W: fmt::Write>(&self, f: &mut fmt::Formatter<W>) -> fmt::Result {
        fmt::Display::fmt(self, f)
    }
}
