ghost use Rattle.std.specs.Prelude.{◌≡◌, false, is_ok};
ghost use Rattle.rules.specs.Asks.{reply};
ghost use Rattle.rules.specs.Calls.{answer, after};
ghost use Rattle.runs.specs.Callers.{caller_of};

use rules::ask::{Question, Reply, Told};
use rules::call::{ADMINS, Accepted, Answer, Call};
use table::calls::Calls;
use table::session::{ReadingSession, WritingSession as Session};

/// Makes one call. A method, or Reset, comes in a session of its caller, which is opened for it.
pub fn make<C: Calls>(table: &mut C, call: Call) -> Answer
    ensures lent { C.lenders table.new ≡ C.lenders table.old }
    ensures kept { is_ok result ≡ false → table.new ≡ table.old }
    ensures answer { result ≡ answer (C.model table.old) call }
    ensures after { C.model table.new ≡ after (C.model table.old) call }
{
    let session = Session::open(caller_of(call))?;
    // A call is data, and each takes other arguments: no table of functions would be shorter.
    match call {
        Call::Assign {
            unit,
            start,
            length,
            standing,
            ..
        } => {
            let row = table.assign(&session, unit, start, length, standing)?;
            return Ok(Accepted::Assigned(row));
        }
        Call::Deassign { row, keep, .. } => table.deassign(&session, row, keep),
        Call::SetRange {
            row,
            start,
            length,
            ..
        } => table.set_range(&session, row, start, length),
        Call::SetLocks { row, flags, .. } => table.set_locks(&session, row, flags),
        Call::GenKey { row, .. } => table.gen_key(&session, row),
        Call::Erase { row, .. } => table.erase(&session, row),
        Call::Reactivate {
            selection,
            policy,
            ..
        } => {
            return match table.reactivate(session, selection, policy) {
                Ok(rows) => Ok(Accepted::SingleUserRows(rows)),
                Err(refused) => Err(refused.cause),
            };
        }
        Call::Create { unit, blocks } => table.create(unit, blocks),
        Call::Delete { unit } => table.delete(unit),
        Call::Format { unit } => table.format(unit),
        Call::Reset { .. } => table.reset(&session),
    }?;
    Ok(Accepted::Success)
}

// Whose session a call comes in. The other commands come in none: for them one of Admins is opened, which is never refused, and not shown.
fn caller_of(call: Call) -> u32
    ensures { result ≡ caller_of call }
{
    match call {
        Call::Assign { caller, .. }
        | Call::Deassign { caller, .. }
        | Call::SetRange { caller, .. }
        | Call::SetLocks { caller, .. }
        | Call::GenKey { caller, .. }
        | Call::Erase { caller, .. }
        | Call::Reactivate { caller, .. }
        | Call::Reset { caller } => caller,
        Call::Create { .. } | Call::Delete { .. } | Call::Format { .. } => ADMINS,
    }
}

/// Asks one question. A row is read in a session of its caller, which is opened for it.
pub fn reply<C: Calls>(table: &C, question: Question) -> Reply
    ensures { result ≡ reply (C.model table.now) question }
{
    Ok(match question {
        Question::Unused => Told::Unused(table.unused()?),
        Question::Controls { unit, block } => Told::Controls(table.controls(unit, block)?),
        Question::Access {
            access,
            unit,
            first,
            count,
        } => {
            table.access(access, unit, first, count)?;
            Told::Granted
        }
        Question::ReadRow { caller, row } => {
            Told::Row(table.read_row(&ReadingSession::open(caller)?, row)?)
        }
    })
}
