//! What a drive is asked, and what comes back.
ghost use Rattle.std.specs.Prelude.{◌≡◌};
ghost use Rattle.rules.specs.Asks.{way};

use crate::access::Access;
use crate::call::{Accepted, Call};
use crate::cause::{Asked, Cause};
use crate::row::RowFields;
use crate::unit::Control;

/// A question, which changes nothing.
#[derive(Clone, Copy)]
pub enum Question {
    /// How many keys are not in use.
    Unused,
    /// Which row controls a block, and under which key.
    Controls {
        unit: u32,
        block: u64,
    },
    /// Whether blocks can be read, or written.
    Access {
        access: Access,
        unit: u32,
        first: u64,
        count: u64,
    },
    /// What a row says. It is read in a session of its caller.
    ReadRow {
        caller: u32,
        row: u32,
    },
}

/// What a drive is asked.
#[derive(Clone, Copy)]
pub enum Ask {
    Call(Call),
    Question(Question),
}

impl Ask {
    /// How it comes in, by which a refusal has its status.
    pub fn way(self) -> Asked
        ensures { result ≡ way self }
    {
        match self {
            Ask::Call(Call::Create { .. } | Call::Delete { .. } | Call::Format { .. }) => {
                Asked::Command
            }
            Ask::Call(Call::Reset { .. }) | Ask::Question(_) => Asked::Command,
            Ask::Call(_) => Asked::Method,
        }
    }
}

/// What an accepted call or question tells.
#[derive(Clone, Copy, PartialEq, Eq)]
pub enum Told {
    /// What the call answers.
    Answered(Accepted),
    Unused(u32),
    Controls(Control),
    /// The access is granted.
    Granted,
    Row(RowFields),
}

/// What comes back: what is told, or why the call or the question is refused.
pub type Reply = Result<Told, Cause>;
