use crate::cause::Cause;
use crate::row::{Flags, Standing};

/// The caller that is no user.
pub const ADMINS: u32 = 0;

/// A call that can change a drive, with all that it takes. A method, or Reset, comes in a session of its caller: 0 is Admins, n is User n.
// Callers, rows, policies and selections are plain numbers, since a host may send any: which of them name something is for the
// checks to say.
#[derive(Clone, Copy)]
pub enum Call {
    Assign {
        caller: u32,
        unit: u32,
        start: u64,
        length: u64,
        /// The standing that the row is to have.
        standing: Standing,
    },
    Deassign {
        caller: u32,
        row: u32,
        keep: bool,
    },
    SetRange {
        caller: u32,
        row: u32,
        start: u64,
        length: u64,
    },
    SetLocks {
        caller: u32,
        row: u32,
        flags: Flags,
    },
    GenKey {
        caller: u32,
        row: u32,
    },
    Erase {
        caller: u32,
        row: u32,
    },
    Reactivate {
        caller: u32,
        /// Bit i stands for row i.
        selection: u32,
        policy: u32,
    },
    Create {
        unit: u32,
        blocks: u64,
    },
    Delete {
        unit: u32,
    },
    Format {
        unit: u32,
    },
    Reset {
        caller: u32,
    },
}

/// What an accepted call answers.
#[derive(Clone, Copy, PartialEq, Eq)]
pub enum Accepted {
    Success,
    /// The row's number, and whether it is a unit row.
    Assigned((u32, bool)),
    /// How many rows are put in Single User Mode.
    SingleUserRows(u32),
}

/// What a call answers.
pub type Answer = Result<Accepted, Cause>;
