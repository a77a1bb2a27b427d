//! How the subject's words are printed.
#![tactic(auto)]

use rules::ask::{Ask, Question, Reply, Told};
use rules::call::{Accepted, Call};
use rules::cause::{Asked, Cause, Status};
use rules::row::{Flags, RowFields, Standing};
use rules::unit::Control;
use std::fmt;

/// A word as it is printed. The types stand in `rules`, where printing would make each of its checks longer.
#[derive(Clone, Copy)]
pub struct Shown<T>(pub T);

/// The name by which a host knows the status.
impl fmt::Display for Shown<Status> {
    fn fmt<W: fmt::Write>(&self, f: &mut fmt::Formatter<W>) -> fmt::Result {
        f.write_str(match self.0 {
            Status::NotAuthorized => "NOT_AUTHORIZED",
            Status::InvalidParameter => "INVALID_PARAMETER",
            Status::InsufficientRows => "INSUFFICIENT_ROWS",
            Status::Fail => "FAIL",
            Status::OperationDenied => "Operation Denied",
            Status::InvalidNamespaceOrFormat => "Invalid Namespace or Format",
            Status::LbaOutOfRange => "LBA Out of Range",
            Status::AccessDenied => "Access Denied",
        })
    }
}

impl fmt::Display for Shown<Standing> {
    fn fmt<W: fmt::Write>(&self, f: &mut fmt::Formatter<W>) -> fmt::Result {
        f.write_str(match self.0 {
            Standing::Shared => "shared",
            Standing::SingleUser => "single-user",
        })
    }
}

/// Each flag that is true, after a space; nothing where none is.
impl fmt::Display for Shown<Flags> {
    fn fmt<W: fmt::Write>(&self, f: &mut fmt::Formatter<W>) -> fmt::Result {
        let flags = self.0;
        for (is_true, name) in [
            (flags.read_lock_enabled, " read-enabled"),
            (flags.write_lock_enabled, " write-enabled"),
            (flags.read_locked, " read-locked"),
            (flags.write_locked, " write-locked"),
            (flags.lock_on_reset, " lock-on-reset"),
        ] {
            if is_true {
                f.write_str(name)?;
            }
        }
        Ok(())
    }
}

impl fmt::Display for Shown<Control> {
    fn fmt<W: fmt::Write>(&self, f: &mut fmt::Formatter<W>) -> fmt::Result {
        let Control { row, serial } = self.0;
        write!(f, "row {row}, key {serial}")
    }
}

impl fmt::Display for Shown<Accepted> {
    fn fmt<W: fmt::Write>(&self, f: &mut fmt::Formatter<W>) -> fmt::Result {
        match self.0 {
            Accepted::Success => f.write_str("SUCCESS"),
            Accepted::Assigned((row, true)) => write!(f, "row {row}, unit row"),
            Accepted::Assigned((row, false)) => write!(f, "row {row}, range row"),
            Accepted::SingleUserRows(count) => write!(f, "{count} rows in Single User Mode"),
        }
    }
}

/// The number, or `none`.
impl fmt::Display for Shown<Option<u32>> {
    fn fmt<W: fmt::Write>(&self, f: &mut fmt::Formatter<W>) -> fmt::Result {
        match self.0 {
            Some(number) => write!(f, "{number}"),
            None => f.write_str("none"),
        }
    }
}

/// A row as it is read.
// The fields alone leave open which unit number is the mark, and whether a row without a unit is row 0.
#[derive(Clone, Copy)]
pub struct ShownRow {
    pub fields: RowFields,
    pub number: usize,
    pub mark: u32,
}

impl ShownRow {
    fn kind(self) -> &'static str {
        if self.fields.unit == self.mark {
            if self.number == 0 {
                "global row"
            } else {
                "free row"
            }
        } else if self.fields.is_unit_row {
            "unit row"
        } else {
            "range row"
        }
    }
}

impl fmt::Display for ShownRow {
    fn fmt<W: fmt::Write>(&self, f: &mut fmt::Formatter<W>) -> fmt::Result {
        let RowFields {
            unit,
            serial,
            start,
            length,
            flags,
            standing,
            ..
        } = self.fields;
        let unit = Shown((unit != self.mark).then_some(unit));
        let key = Shown((serial != 0).then_some(serial));
        let flags = FlagsOrNone(flags);
        let kind = self.kind();
        let standing = Shown(standing);
        write!(
            f,
            "unit {unit}, start {start}, length {length}, key {key}, flags{flags}, {kind}, {standing}"
        )
    }
}

/// Each flag that is true, after a space, or ` none`.
#[derive(Clone, Copy)]
struct FlagsOrNone(Flags);

const NO_FLAGS: Flags = Flags {
    read_lock_enabled: false,
    write_lock_enabled: false,
    read_locked: false,
    write_locked: false,
    lock_on_reset: false,
};

impl fmt::Display for FlagsOrNone {
    fn fmt<W: fmt::Write>(&self, f: &mut fmt::Formatter<W>) -> fmt::Result {
        if self.0 == NO_FLAGS {
            f.write_str(" none")
        } else {
            Shown(self.0).fmt(f)
        }
    }
}

/// A refusal as it is printed, with its status where it is said how the call came in.
#[derive(Clone, Copy)]
pub struct ShownRefusal {
    pub cause: Cause,
    pub asked: Option<Asked>,
}

impl fmt::Display for ShownRefusal {
    fn fmt<W: fmt::Write>(&self, f: &mut fmt::Formatter<W>) -> fmt::Result {
        let cause = self.cause;
        write!(f, "refused {}", cause.number())?;
        if let Some(asked) = self.asked {
            if let Some(status) = cause.status(asked) {
                write!(f, " {}", Shown(status))?;
            }
        }
        match cause {
            Cause::BlockLocked { block, row } => write!(f, ", block {block}, row {row}"),
            _ => Ok(()),
        }
    }
}

/// The reply to what was asked of a drive whose rows without a unit have this mark.
#[derive(Clone, Copy)]
pub struct ShownReply {
    pub ask: Ask,
    pub reply: Reply,
    pub mark: u32,
    pub with_status: bool,
}

impl ShownReply {
    fn row_number(self) -> usize {
        match self.ask {
            Ask::Question(Question::ReadRow { row, .. }) => row as usize,
            _ => 0,
        }
    }
}

impl fmt::Display for ShownReply {
    fn fmt<W: fmt::Write>(&self, f: &mut fmt::Formatter<W>) -> fmt::Result {
        match self.reply {
            Ok(Told::Answered(accepted)) => Shown(accepted).fmt(f),
            Ok(Told::Unused(count)) => write!(f, "{count}"),
            Ok(Told::Controls(control)) => Shown(control).fmt(f),
            Ok(Told::Granted) => f.write_str("granted"),
            Ok(Told::Row(fields)) => ShownRow {
                fields,
                number: self.row_number(),
                mark: self.mark,
            }
            .fmt(f),
            Err(cause) => ShownRefusal {
                cause,
                asked: self.with_status.then_some(self.ask.way()),
            }
            .fmt(f),
        }
    }
}
