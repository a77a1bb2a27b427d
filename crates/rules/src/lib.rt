//! What a reader must believe: the types of the subject, and in specs/ the definition of every call and the laws over runs.
#![tactic(auto)]

pub mod access;
pub mod ask;
pub mod call;
pub mod cause;
pub mod laws;
pub mod meanings;
pub mod numbering;
pub mod row;
pub mod unit;
