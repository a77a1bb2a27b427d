//! A line of a script: its words, one after the other, and what they say: the layout of a table, or what is wanted of it.
#![tactic(auto)]

mod calls;
mod commands;
mod fault;
mod keywords;
mod kinds;
mod laying_out;
mod methods;
mod orders;
mod words;

pub use calls::{Layout, Order, Source};
pub use fault::Fault;
pub use kinds::{NumberingKind, VaultKind};
pub use laying_out::layout;
pub use orders::order;
pub use words::Words;
