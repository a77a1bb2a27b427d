//! The saved form of a table, byte for byte.
#![tactic(auto)]

mod descriptor;
mod meaning;
mod reader;
mod records;
mod writer;

pub use descriptor::describe;
pub use reader::load;
pub use writer::{save, total};
