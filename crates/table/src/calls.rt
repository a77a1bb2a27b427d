//! What a drive can be called for.
ghost use Rattle.std.specs.Prelude.{◌≡◌, ℕ, false, List, is_ok};
ghost use Rattle.rules.specs.Drive.{Drive};
ghost use Rattle.rules.specs.Commands.{create_answer, create_after, delete_answer, delete_after, format_answer, format_after, reset_answer, reset_after};
ghost use Rattle.rules.specs.Methods.{assign_answer, assign_after, deassign_answer, deassign_after, set_range_answer, set_range_after, set_locks_answer, set_locks_after, gen_key_answer, gen_key_after, erase_answer, erase_after, reactivate_answer, reactivate_after};
ghost use Rattle.rules.specs.Questions.{access_answer, unused_answer, controls_answer, read_row_answer};
ghost use Rattle.vault.specs.Serials.{holds};
ghost use Rattle.sheet.specs.Saving.{save_answer, saved, describe_answer, described};
ghost use Rattle.table.specs.Sessions.{giving_back};

use crate::session::{ReadingSession, Refused, WritingSession};
use rules::access::Access;
use rules::cause::Cause;
use rules::row::{Flags, Row, RowFields, Standing};
use rules::unit::{Control, LogicalUnit};

/// The calls of a drive, by its model: what each answers, and what it leaves.
// The clauses of each call name the definitions of that call, so they stand with it and not in one clause for all.
pub trait Calls {
    ghost model: { Self → Drive };

    // The ghost names of the vault's reference and of what was lent to the vault, so that the lenders know both again.
    ghost lenders: { Self → List ℕ };

    /// A row for a unit, or for a range of a unit that has one: its number, and whether it is a unit row.
    fn assign(
        &mut self,
        session: &WritingSession,
        unit: u32,
        start: u64,
        length: u64,
        standing: Standing,
    ) -> Result<(u32, bool), Cause>
        ensures lent { lenders self.new ≡ lenders self.old }
        ensures kept { is_ok result ≡ false → self.new ≡ self.old }
        ensures answer { result ≡ assign_answer (model self.old) session.now.caller unit start length standing }
        ensures after { model self.new ≡ assign_after (model self.old) session.now.caller unit start length standing };

    /// Gives a row up. A range row's key is eradicated; the unit of a unit row keeps its key, or gets a fresh one.
    fn deassign(&mut self, session: &WritingSession, row: u32, keep: bool) -> Result<(), Cause>
        ensures lent { lenders self.new ≡ lenders self.old }
        ensures kept { is_ok result ≡ false → self.new ≡ self.old }
        ensures answer { result ≡ deassign_answer (model self.old) session.now.caller row keep }
        ensures after { model self.new ≡ deassign_after (model self.old) session.now.caller row keep };

    /// Puts a range row over other blocks, under the same key.
    fn set_range(
        &mut self,
        session: &WritingSession,
        row: u32,
        start: u64,
        length: u64,
    ) -> Result<(), Cause>
        ensures lent { lenders self.new ≡ lenders self.old }
        ensures kept { is_ok result ≡ false → self.new ≡ self.old }
        ensures answer { result ≡ set_range_answer (model self.old) session.now.caller row start length }
        ensures after { model self.new ≡ set_range_after (model self.old) session.now.caller row start length };

    /// Sets the five flags of a row. Every other row is as it was.
    fn set_locks(&mut self, session: &WritingSession, row: u32, flags: Flags) -> Result<(), Cause>
        ensures lent { lenders self.new ≡ lenders self.old }
        ensures kept { is_ok result ≡ false → self.new ≡ self.old }
        ensures answer { result ≡ set_locks_answer (model self.old) session.now.caller row }
        ensures after { model self.new ≡ set_locks_after (model self.old) session.now.caller row flags };

    /// A fresh key: for a range row, for the unit of a unit row, or for row 0 for every unit without a unit row.
    fn gen_key(&mut self, session: &WritingSession, row: u32) -> Result<(), Cause>
        ensures lent { lenders self.new ≡ lenders self.old }
        ensures kept { is_ok result ≡ false → self.new ≡ self.old }
        ensures answer { result ≡ gen_key_answer (model self.old) session.now.caller row }
        ensures after { model self.new ≡ gen_key_after (model self.old) session.now.caller row };

    /// What `gen_key` does, and then blank flags.
    fn erase(&mut self, session: &WritingSession, row: u32) -> Result<(), Cause>
        ensures lent { lenders self.new ≡ lenders self.old }
        ensures kept { is_ok result ≡ false → self.new ≡ self.old }
        ensures answer { result ≡ erase_answer (model self.old) session.now.caller row }
        ensures after { model self.new ≡ erase_after (model self.old) session.now.caller row };

    /// Puts the rows in Single User Mode that are selected, bit i for row i, and no others; says how many. This ends the session.
    fn reactivate(
        &mut self,
        session: WritingSession,
        selection: u32,
        policy: u32,
    ) -> Result<u32, Refused>
        ensures lent { lenders self.new ≡ lenders self.old }
        ensures kept { is_ok result ≡ false → self.new ≡ self.old }
        ensures answer { result ≡ giving_back session (reactivate_answer (model self.old) session.caller selection policy) }
        ensures after { model self.new ≡ reactivate_after (model self.old) session.caller selection policy };

    /// A new unit, under a fresh key.
    fn create(&mut self, number: u32, blocks: u64) -> Result<(), Cause>
        ensures lent { lenders self.new ≡ lenders self.old }
        ensures kept { is_ok result ≡ false → self.new ≡ self.old }
        ensures answer { result ≡ create_answer (model self.old) number blocks }
        ensures after { model self.new ≡ create_after (model self.old) number blocks };

    /// Takes a unit away, and eradicates its key.
    fn delete(&mut self, number: u32) -> Result<(), Cause>
        ensures lent { lenders self.new ≡ lenders self.old }
        ensures kept { is_ok result ≡ false → self.new ≡ self.old }
        ensures answer { result ≡ delete_answer (model self.old) number }
        ensures after { model self.new ≡ delete_after (model self.old) number };

    /// Fresh keys for a unit and its range rows; flags and ranges stay.
    fn format(&mut self, unit: u32) -> Result<(), Cause>
        ensures lent { lenders self.new ≡ lenders self.old }
        ensures kept { is_ok result ≡ false → self.new ≡ self.old }
        ensures answer { result ≡ format_answer (model self.old) unit }
        ensures after { model self.new ≡ format_after (model self.old) unit };

    /// The drive was reset: where lock on reset is true, each lock that is enabled is set. The session goes on.
    fn reset(&mut self, session: &WritingSession) -> Result<(), Cause>
        ensures lent { lenders self.new ≡ lenders self.old }
        ensures kept { is_ok result ≡ false → self.new ≡ self.old }
        ensures answer { result ≡ reset_answer (model self.old) }
        ensures after { model self.new ≡ reset_after (model self.old) };

    /// Whether these blocks can be read, or written; if not, the first that is locked, and its row.
    fn access(&self, access: Access, unit: u32, first: u64, count: u64) -> Result<(), Cause>
        ensures { result ≡ access_answer (model self.now) access unit first count };

    /// How many keys are not in use.
    fn unused(&self) -> Result<u32, Cause>
        ensures { result ≡ unused_answer (model self.now) };

    /// The row that controls a block, and the serial of the block's key.
    fn controls(&self, number: u32, block: u64) -> Result<Control, Cause>
        ensures { result ≡ controls_answer (model self.now) number block };

    /// A row as the sheet has it, and its standing.
    fn read_row(&self, session: &ReadingSession, row: u32) -> Result<RowFields, Cause>
        ensures { result ≡ read_row_answer (model self.now) row };

    /// Writes the sheet to the start of a buffer, and answers how long it is.
    fn save(&self, out: &mut [u8]) -> Result<u32, Cause>
        ensures answer { result ≡ save_answer (model self.now) out.old }
        ensures buffer { out.new ≡ saved (model self.now) out.old };

    /// Writes the descriptor to the start of a buffer.
    fn describe(&self, out: &mut [u8]) -> Result<(), Cause>
        ensures answer { result ≡ describe_answer (model self.now) out.old }
        ensures buffer { out.new ≡ described (model self.now) out.old };

    /// Whether the vault holds the key with this serial.
    fn holds(&self, serial: u32) -> bool
        ensures { result ≡ holds serial (model self.now).vault.held };

    /// The units in rising order, to look at.
    fn units(&self) -> &[LogicalUnit]
        ensures { result.now ≡ (model self.now).units };

    /// The rows from row 0, to look at.
    fn rows(&self) -> &[Row]
        ensures { result.now ≡ (model self.now).rows };
}
