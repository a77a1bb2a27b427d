use rules::access::Access;
use rules::ask::{Ask, Question};
use rules::call::Call;
use rules::row::Standing;
use shown::Shown;
use std::fmt;

/// A call or a question in the words of a script: who calls, its name, and what it is called with. Each has a form of its own.
#[derive(Clone, Copy)]
pub struct Words(pub Ask);

impl fmt::Display for Words {
    fn fmt<W: fmt::Write>(&self, f: &mut fmt::Formatter<W>) -> fmt::Result {
        match self.0 {
            Ask::Call(call) => write_call(call, f),
            Ask::Question(question) => write_question(question, f),
        }
    }
}

fn write_question<W: fmt::Write>(question: Question, f: &mut fmt::Formatter<W>) -> fmt::Result {
    match question {
        Question::Unused => f.write_str("unused"),
        Question::Controls { unit, block } => write!(f, "controls {unit} {block}"),
        Question::Access {
            access,
            unit,
            first,
            count,
        } => {
            let way = match access {
                Access::Read => "read",
                Access::Write => "write",
            };
            write!(f, "access {way} {unit} {first} {count}")
        }
        Question::ReadRow { caller, row } => write!(f, "{} read-row {row}", Caller(caller)),
    }
}

/// Who calls a method.
#[derive(Clone, Copy)]
struct Caller(u32);

impl fmt::Display for Caller {
    fn fmt<W: fmt::Write>(&self, f: &mut fmt::Formatter<W>) -> fmt::Result {
        match self.0 {
            0 => f.write_str("admins"),
            user => write!(f, "user {user}"),
        }
    }
}

/// The rows that a selection has, each after a space: bit i stands for row i.
#[derive(Clone, Copy)]
struct Selection(u32);

impl fmt::Display for Selection {
    fn fmt<W: fmt::Write>(&self, f: &mut fmt::Formatter<W>) -> fmt::Result {
        let bits = self.0;
        for row in (0..32u32).filter(|row| (bits >> *row) % 2 == 1) {
            write!(f, " {row}")?;
        }
        Ok(())
    }
}

/// Who makes the call, where it is a method.
fn caller_of(call: Call) -> Option<u32> {
    match call {
        Call::Create { .. } | Call::Delete { .. } | Call::Format { .. } => None,
        Call::Assign { caller, .. }
        | Call::Deassign { caller, .. }
        | Call::SetRange { caller, .. }
        | Call::SetLocks { caller, .. }
        | Call::GenKey { caller, .. }
        | Call::Erase { caller, .. }
        | Call::Reactivate { caller, .. }
        | Call::Reset { caller } => Some(caller),
    }
}

/// What `assign` ends with.
fn last_word(standing: Standing) -> &'static str {
    match standing {
        Standing::Shared => "",
        Standing::SingleUser => " single",
    }
}

fn write_call<W: fmt::Write>(call: Call, f: &mut fmt::Formatter<W>) -> fmt::Result {
    if let Some(caller) = caller_of(call) {
        write!(f, "{} ", Caller(caller))?;
    }
    match call {
        Call::Assign {
            unit,
            start,
            length,
            standing,
            ..
        } => { write!(f, "assign {unit} {start} {length}{}", last_word(standing)) }
        Call::Deassign { row, keep, .. } => {
            let last = if keep { " keep" } else { "" };
            write!(f, "deassign {row}{last}")
        }
        Call::SetRange {
            row,
            start,
            length,
            ..
        } => write!(f, "set-range {row} {start} {length}"),
        Call::SetLocks { row, flags, .. } => write!(f, "set-locks {row}{}", Shown(flags)),
        Call::GenKey { row, .. } => write!(f, "gen-key {row}"),
        Call::Erase { row, .. } => write!(f, "erase {row}"),
        Call::Reactivate {
            selection,
            policy,
            ..
        } => write!(f, "reactivate {policy}{}", Selection(selection)),
        Call::Create { unit, blocks } => write!(f, "create {unit} {blocks}"),
        Call::Delete { unit } => write!(f, "delete {unit}"),
        Call::Format { unit } => write!(f, "format {unit}"),
        Call::Reset { .. } => f.write_str("reset"),
    }
}
