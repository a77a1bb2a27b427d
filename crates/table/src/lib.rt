//! The Locking table of a drive: every public call, over any vault and any numbering.
#![tactic(auto)]

pub mod calls;
pub mod loading;
pub mod refusals;
mod renewals;
pub mod restoring;
pub mod session;
pub mod state;
mod table_calls;
