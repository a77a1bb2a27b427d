//! The plain content of a table: units, rows, next serial and policy. It knows no vault and no session.
#![tactic(auto)]

pub mod access;
pub mod content;
pub mod edits;
pub mod holders;
pub mod lookups;
pub mod rows;
