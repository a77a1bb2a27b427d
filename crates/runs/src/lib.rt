//! Whole runs: a table is laid out and any list of calls is made on it.
#![tactic(auto)]

pub mod kinds;
pub mod make;
pub mod observer;
pub mod run;
pub mod source;
pub mod step;
