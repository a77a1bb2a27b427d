use crate::files::write_sheet;
use rules::cause::Cause;
use shown::ShownRefusal;
use std::fmt;
use table::calls::Calls;

/// What `describe` or `save` answers, as it is printed.
#[derive(Clone, Copy)]
pub enum Answer {
    Described(Descriptor),
    /// How many bytes the sheet has.
    Saved(u32),
    /// Description and saving are refused by numbers alone.
    Refused(Cause),
}

/// The answer to `describe`.
pub fn described<C: Calls>(table: &C) -> Answer {
    let mut bytes = [0; 20];
    match table.describe(&mut bytes) {
        Ok(()) => Answer::Described(Descriptor(bytes)),
        Err(cause) => Answer::Refused(cause),
    }
}

/// The answer to `save`, once the sheet is in its file.
pub fn saved<C: Calls>(
    rt: &HostRuntime,
    table: &C,
    line: usize,
    path: &str,
) -> anyhow::Result<Answer> {
    // As long as a sheet can be, with sixteen units.
    let mut sheet = [0; 832];
    match table.save(&mut sheet) {
        Ok(total) => {
            write_sheet(rt, line, path, &sheet[0..total as usize])?;
            Ok(Answer::Saved(total))
        }
        Err(cause) => Ok(Answer::Refused(cause)),
    }
}

impl fmt::Display for Answer {
    fn fmt<W: fmt::Write>(&self, f: &mut fmt::Formatter<W>) -> fmt::Result {
        match *self {
            Answer::Described(descriptor) => descriptor.fmt(f),
            Answer::Saved(total) => write!(f, "{total} bytes"),
            Answer::Refused(cause) => ShownRefusal { cause, asked: None }.fmt(f),
        }
    }
}

/// The bytes of a descriptor, with a space between.
#[derive(Clone, Copy)]
pub struct Descriptor([u8; 20]);

impl fmt::Display for Descriptor {
    fn fmt<W: fmt::Write>(&self, f: &mut fmt::Formatter<W>) -> fmt::Result {
        let mut gap = "";
        for byte in self.0 {
            write!(f, "{gap}{byte:02x}")?;
            gap = " ";
        }
        Ok(())
    }
}
