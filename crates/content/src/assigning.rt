//! The checks of Assign, in their order. They are told how many keys the vault has room for.
ghost use Rattle.std.specs.Prelude.{◌≡◌, ◌<◌, true, false, not, [], ◌∷◌, IfOk};
ghost use Rattle.vault.specs.Checks.{answer, first_of};
ghost use Rattle.rules.specs.declared.cause.Cause.TheVariants.{Locked, NoFreeRow};
ghost use Rattle.rules.specs.declared.row.Sought.TheVariants.{FreeRow};
ghost use Rattle.rules.specs.Methods.{assign_answer, range_row_checks, row_to_take, unit_row_checks};
ghost use Rattle.rules.specs.Rows.{is_there, row_under};
ghost use Rattle.vault.specs.Kinds.{nothing};
ghost use Rattle.layout.specs.View.{drive};
ghost use Rattle.content.specs.Rooms.{room_for};

use crate::Content;
use rules::call::ADMINS;
use rules::cause::Cause;
use rules::numbering::Numbering;
use rules::row::{Sought, Standing};

impl<N: Numbering> Content<N> {
    /// The row that the unit or the range gets, and whether it is a unit row.
    pub fn check_assign(
        &self,
        unused: u32,
        caller: u32,
        unit: u32,
        start: u64,
        length: u64,
        standing: Standing,
    ) -> Result<(u32, bool), Cause>
        ensures answer { result ≡ assign_answer (drive self.now.layout self.now.closed N.BOUNDS (room_for unused)) caller unit start length standing }
        ensures within { IfOk result (λ assigned. assigned.0 < 17) }
        ensures spare { IfOk result (λ assigned. assigned.1 ≡ false → self.now.layout.next < 4294967295) }
    {
        self.check_open()?;
        if caller != ADMINS {
            return Err(Cause::CallerNotAllowed);
        }
        if !self.layout.units.contains(unit) {
            return Err(Cause::NoSuchUnit);
        }
        match self.layout.rows.find(Sought::UnitRowOf { unit }) {
            Some(under) => self.check_range_row(unused, unit, under, start, length, standing),
            None => self.check_unit_row(start, length, standing),
        }
    }

    fn check_unit_row(
        &self,
        start: u64,
        length: u64,
        standing: Standing,
    ) -> Result<(u32, bool), Cause>
        ensures answer { result ≡ answer (first_of (unit_row_checks (drive self.now.layout self.now.closed N.BOUNDS nothing) start length standing)) (row_to_take (drive self.now.layout self.now.closed N.BOUNDS nothing) standing, true) }
        ensures within { IfOk result (λ assigned. assigned.0 < 17) }
    {
        if start != 0 || length != 0 {
            return Err(Cause::FirstNotWhole);
        }
        let global = self.layout.rows.get(0);
        if global.standing.is_single_user() {
            return Err(Cause::SingleUserInTheWay);
        }
        if global.flags.is_locked() {
            return Err(Cause::Locked);
        }
        let row = self.free_row(standing)?;
        Ok((row as u32, true))
    }

    /// The unit stands under this row.
    fn check_range_row(
        &self,
        unused: u32,
        unit: u32,
        under: usize,
        start: u64,
        length: u64,
        standing: Standing,
    ) -> Result<(u32, bool), Cause>
        requires under { under ≡ row_under self.now.layout.rows unit }
        requires within { under < 17 }
        ensures answer { result ≡ answer (first_of (range_row_checks (drive self.now.layout self.now.closed N.BOUNDS (room_for unused)) unit start length standing)) (row_to_take (drive self.now.layout self.now.closed N.BOUNDS (room_for unused)) standing, false) }
        ensures within { IfOk result (λ assigned. assigned.0 < 17) }
        ensures spare { IfOk result (λ _. self.now.layout.next < 4294967295) }
    {
        if self.layout.ends_past(unit, start, length) {
            return Err(Cause::PastUnit);
        }
        if self.layout.rows.has(Sought::RangeSharing {
            unit,
            start,
            length,
        }) {
            return Err(Cause::SharesBlock);
        }
        let above = self.layout.rows.get(under);
        if above.standing.is_single_user() {
            return Err(Cause::SingleUserInTheWay);
        }
        if above.flags.is_locked() {
            return Err(Cause::Locked);
        }
        let row = self.free_row(standing)?;
        if unused == 0 {
            return Err(Cause::NoUnusedKey);
        }
        self.check_serials(1)?;
        Ok((row as u32, false))
    }

    /// The lowest free row of this standing.
    fn free_row(&self, standing: Standing) -> Result<usize, Cause>
        ensures answer { result ≡ answer (first_of ((not (is_there (FreeRow standing) self.now.layout.rows), NoFreeRow) ∷ [])) (row_to_take (drive self.now.layout self.now.closed N.BOUNDS nothing) standing) }
        ensures within { IfOk result (λ row. row < 17) }
    {
        self.layout
            .rows
            .find(Sought::FreeRow { standing })
            .ok_or(Cause::NoFreeRow)
    }
}
