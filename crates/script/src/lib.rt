//! The rehearsal script: text in, the layout and the calls out.
#![tactic(auto)]

mod error;
mod parser;
mod script;

pub use crate::error::ScriptError;
pub use crate::parser::parse;
pub use crate::script::{Line, Script};
pub use lines::{Fault, Layout, NumberingKind, Order, Source, VaultKind};
