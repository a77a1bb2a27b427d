//! The checks of the methods but Assign, in their order.
ghost use Rattle.std.specs.Prelude.{◌≡◌, ℕ, ◌+◌, ◌<◌, ◌≤◌, ◌&&◌, ◌||◌, true, not, [], ◌∷◌, length, IfOk, nat_lt};
ghost use Rattle.std.specs.Result.{result_err};
ghost use Rattle.vault.specs.Checks.{answer, first_of};
ghost use Rattle.vault.specs.Kinds.{nothing};
ghost use Rattle.rules.specs.declared.cause.Cause.TheVariants.{KeepOnRange, Locked, NoSuchRow, RangeRowsRemain, RowFree, SerialsRunOut};
ghost use Rattle.rules.specs.declared.row.Sought.TheVariants.{RangeRowOf};
ghost use Rattle.rules.specs.Drive.{kind_of, refused_by, row_of, run_out};
ghost use Rattle.rules.specs.FreshKeys.{renewed_by};
ghost use Rattle.rules.specs.Methods.{deassign_answer, erase_refusal, gen_key_refusal, reactivate_refusal, set_locks_answer, set_range_answer};
ghost use Rattle.rules.specs.Rows.{is_a_unit_row, is_free, is_range_row, is_there, locked, unit_or};
ghost use Rattle.layout.specs.View.{drive};

use crate::Content;
use layout::holders::Holders;
use rules::call::ADMINS;
use rules::cause::Cause;
use rules::numbering::Numbering;
use rules::row::{Kind, Row, Sought};

impl<N: Numbering> Content<N> {
    /// The row with this number, where it is one and is not free.
    fn row_in_use(&self, row: u32) -> Result<Row, Cause>
        ensures answer { result ≡ answer (refused_by (drive self.now.layout self.now.closed N.BOUNDS nothing) ((nat_lt 16 row, NoSuchRow) ∷ (is_free (kind_of (drive self.now.layout self.now.closed N.BOUNDS nothing) row), RowFree) ∷ [])) (row_of (drive self.now.layout self.now.closed N.BOUNDS nothing) row) }
        ensures within { IfOk result (λ _. row < 17) }
    {
        self.check_open()?;
        if row > 16 {
            return Err(Cause::NoSuchRow);
        }
        let found = self.layout.rows.get(row as usize);
        if let Kind::Free = found.kind {
            return Err(Cause::RowFree);
        }
        Ok(found)
    }

    pub fn check_deassign(&self, caller: u32, row: u32, keep: bool) -> Result<(), Cause>
        ensures answer { result ≡ deassign_answer (drive self.now.layout self.now.closed N.BOUNDS nothing) caller row keep }
        ensures within { IfOk result (λ _. row < 17) }
        ensures spare { IfOk result (λ _. (is_a_unit_row (kind_of (drive self.now.layout self.now.closed N.BOUNDS nothing) row) && not keep) ≡ true → self.now.layout.next < 4294967295) }
    {
        let leaving = self.row_in_use(row)?;
        if row == 0 {
            return Err(Cause::WrongKind);
        }
        if caller != ADMINS {
            return Err(Cause::CallerNotAllowed);
        }
        let receiver = self.layout.rows.get(self.layout.receiver(leaving.kind));
        if leaving.standing.is_single_user() || receiver.standing.is_single_user() {
            return Err(Cause::SingleUserInTheWay);
        }
        self.check_leaving(leaving, receiver, keep)
    }

    /// What is left to check of a row that leaves its blocks to the receiver, by what it is for.
    fn check_leaving(&self, leaving: Row, receiver: Row, keep: bool) -> Result<(), Cause>
        ensures answer { (mark : ℕ) → result ≡ answer (first_of (
            (keep && is_range_row leaving.kind, KeepOnRange)
            ∷ (is_a_unit_row leaving.kind && is_there (RangeRowOf (unit_or leaving.kind mark)) self.now.layout.rows, RangeRowsRemain)
            ∷ (locked leaving.flags || locked receiver.flags, Locked)
            ∷ ((is_a_unit_row leaving.kind && not keep) && run_out 1 (drive self.now.layout self.now.closed N.BOUNDS nothing), SerialsRunOut)
            ∷ [])) tt }
        ensures spare { IfOk result (λ _. (is_a_unit_row leaving.kind && not keep) ≡ true → self.now.layout.next < 4294967295) }
    {
        let is_locked = leaving.flags.is_locked() || receiver.flags.is_locked();
        match leaving.kind {
            Kind::UnitRow { unit } => {
                if self.layout.rows.has(Sought::RangeRowOf { unit }) {
                    return Err(Cause::RangeRowsRemain);
                }
                if is_locked {
                    return Err(Cause::Locked);
                }
                // A unit that does not keep its key gets a fresh one.
                if keep { Ok(()) } else { self.check_serials(1) }
            }
            Kind::RangeRow { .. } if keep => Err(Cause::KeepOnRange),
            _ if is_locked => Err(Cause::Locked),
            _ => Ok(()),
        }
    }

    pub fn check_set_range(
        &self,
        caller: u32,
        row: u32,
        start: u64,
        length: u64,
    ) -> Result<(), Cause>
        ensures answer { result ≡ set_range_answer (drive self.now.layout self.now.closed N.BOUNDS nothing) caller row start length }
        ensures within { IfOk result (λ _. row < 17) }
    {
        let moved = self.row_in_use(row)?;
        let Kind::RangeRow { unit, .. } = moved.kind else {
            return Err(Cause::WrongKind);
        };
        if !moved.is_moved_by(caller, row, self.layout.policy) {
            return Err(Cause::CallerNotAllowed);
        }
        if self.layout.ends_past(unit, start, length) {
            return Err(Cause::PastUnit);
        }
        let others = self.layout.rows.without(row as usize);
        if others.has(Sought::RangeSharing {
            unit,
            start,
            length,
        }) {
            return Err(Cause::SharesBlock);
        }
        let under = self.layout.rows.get(self.layout.row_under(unit));
        if moved.flags.is_locked() || under.flags.is_locked() {
            return Err(Cause::Locked);
        }
        Ok(())
    }

    pub fn check_set_locks(&self, caller: u32, row: u32) -> Result<(), Cause>
        ensures answer { result ≡ set_locks_answer (drive self.now.layout self.now.closed N.BOUNDS nothing) caller row }
        ensures within { IfOk result (λ _. row < 17) }
    {
        let locked = self.row_in_use(row)?;
        if !locked.is_owned_by(caller, row) {
            return Err(Cause::CallerNotAllowed);
        }
        Ok(())
    }

    /// What gets fresh keys.
    pub fn check_gen_key(&self, caller: u32, row: u32) -> Result<Holders, Cause>
        ensures refused { result_err result ≡ gen_key_refusal (drive self.now.layout self.now.closed N.BOUNDS nothing) caller row }
        ensures holders { IfOk result (λ h. h.items ≡ renewed_by (drive self.now.layout self.now.closed N.BOUNDS nothing) row) }
        ensures spare { IfOk result (λ h. self.now.layout.next + length h.items ≤ 4294967295) }
    {
        let renewed = self.row_in_use(row)?;
        if !renewed.is_owned_by(caller, row) {
            return Err(Cause::CallerNotAllowed);
        }
        let holders = self.layout.renewed_by(row as usize);
        self.check_serials(holders.len())?;
        Ok(holders)
    }

    /// What gets fresh keys.
    pub fn check_erase(&self, caller: u32, row: u32) -> Result<Holders, Cause>
        ensures refused { result_err result ≡ erase_refusal (drive self.now.layout self.now.closed N.BOUNDS nothing) caller row }
        ensures holders { IfOk result (λ h. h.items ≡ renewed_by (drive self.now.layout self.now.closed N.BOUNDS nothing) row) }
        ensures spare { IfOk result (λ h. self.now.layout.next + length h.items ≤ 4294967295) }
        ensures within { IfOk result (λ _. row < 17) }
    {
        let erased = self.row_in_use(row)?;
        if !erased.standing.is_single_user() {
            return Err(Cause::WrongKind);
        }
        if !erased.is_owned_by(caller, row) && caller != ADMINS {
            return Err(Cause::CallerNotAllowed);
        }
        let holders = self.layout.renewed_by(row as usize);
        self.check_serials(holders.len())?;
        Ok(holders)
    }

    pub fn check_reactivate(&self, caller: u32, selection: u32, policy: u32) -> Result<(), Cause>
        ensures { result ≡ answer (reactivate_refusal (drive self.now.layout self.now.closed N.BOUNDS nothing) caller selection policy) tt }
    {
        self.check_open()?;
        if caller != ADMINS {
            return Err(Cause::CallerNotAllowed);
        }
        if selection >= 0x2_0000 || policy > 1 {
            return Err(Cause::OutOfBounds);
        }
        if self.layout.rows.is_lock_enabled() {
            return Err(Cause::LockEnabled);
        }
        Ok(())
    }
}
