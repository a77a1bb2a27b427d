use crate::rows::Rows;
use packed::SortedList;
use rules::unit::LogicalUnit;

/// The units of a drive, by their numbers.
pub type Units = SortedList<LogicalUnit, 16>;

/// What a table stores.
#[derive(Drop)]
pub struct Layout {
    pub units: Units,
    pub rows: Rows,
    /// The serial that a fresh key gets next.
    pub next: u32,
    /// 0 or 1: a number, as the host gives it and the sheet has it.
    pub policy: u16,
}
