//! Sessions: who calls. Any session can read, and only a writing one can change a table.
ghost use Rattle.std.specs.Prelude.{◌≡◌};
ghost use Rattle.vault.specs.Checks.{answer};
ghost use Rattle.rules.specs.Sessions.{opening_refusal};

use rules::cause::Cause;

/// A session of a caller in which a table can be changed: caller 0 is Admins, caller n is User n.
// Only opening makes one, and it is moved, not copied: what ends a session takes it.
#[derive(Drop)]
pub struct WritingSession {
    pub(crate) caller: u32,
}

/// Why a session was not ended, and the session.
#[derive(Drop)]
pub struct Refused {
    pub cause: Cause,
    pub session: WritingSession,
}

/// A session of a caller in which a table can only be looked at.
#[derive(Drop)]
pub struct ReadingSession {
    caller: u32,
}

impl WritingSession {
    /// Opens a session of this caller.
    pub fn open(caller: u32) -> Result<WritingSession, Cause>
        ensures { result ≡ answer (opening_refusal caller) (record { caller = caller }) }
    {
        check_caller(caller)?;
        Ok(WritingSession { caller })
    }

    /// From here on the session can only read.
    pub fn narrow(self) -> ReadingSession
        ensures { result ≡ record { caller = self.caller } }
    {
        ReadingSession {
            caller: self.caller,
        }
    }
}

impl ReadingSession {
    /// Opens a session of this caller.
    pub fn open(caller: u32) -> Result<ReadingSession, Cause>
        ensures { result ≡ answer (opening_refusal caller) (record { caller = caller }) }
    {
        check_caller(caller)?;
        Ok(ReadingSession { caller })
    }
}

fn check_caller(caller: u32) -> Result<(), Cause>
    ensures { result ≡ answer (opening_refusal caller) tt }
{
    if caller > 17 {
        return Err(Cause::OutOfBounds);
    }
    Ok(())
}
