//! The checks of Create, Delete and Format, in their order.
ghost use Rattle.std.specs.Prelude.{◌≡◌, ◌+◌, ◌≤◌, length, IfOk};
ghost use Rattle.std.specs.Result.{result_err};
ghost use Rattle.vault.specs.Kinds.{nothing};
ghost use Rattle.rules.specs.Commands.{create_answer, delete_answer, format_refusal};
ghost use Rattle.rules.specs.FreshKeys.{unit_and_ranges};
ghost use Rattle.layout.specs.View.{drive};
ghost use Rattle.content.specs.Rooms.{room_for};

use crate::Content;
use layout::holders::Holders;
use rules::cause::Cause;
use rules::numbering::Numbering;
use rules::row::Sought;

impl<N: Numbering> Content<N> {
    /// It is told how many keys the vault has room for.
    pub fn check_create(&self, unused: u32, number: u32, blocks: u64) -> Result<(), Cause>
        ensures { result ≡ create_answer (drive self.now.layout self.now.closed N.BOUNDS (room_for unused)) number blocks }
    {
        self.check_open()?;
        if !N::BOUNDS.is_valid(number) {
            return Err(Cause::NoSuchUnit);
        }
        if self.layout.units.contains(number) {
            return Err(Cause::UnitExists);
        }
        if blocks < 1 || blocks > 0x1_0000_0000_0000 {
            return Err(Cause::BadSize);
        }
        if self.layout.units.len() >= 16 {
            return Err(Cause::SixteenUnits);
        }
        if unused == 0 {
            return Err(Cause::NoUnusedKey);
        }
        self.check_serials(1)?;
        if self.layout.global_locked() {
            return Err(Cause::Locked);
        }
        Ok(())
    }

    pub fn check_delete(&self, number: u32) -> Result<(), Cause>
        ensures { result ≡ delete_answer (drive self.now.layout self.now.closed N.BOUNDS nothing) number }
    {
        self.check_open()?;
        if !self.layout.units.contains(number) {
            return Err(Cause::NoSuchUnit);
        }
        if self.layout.rows.has(Sought::UnitRowOf { unit: number }) {
            return Err(Cause::HasUnitRow);
        }
        if self.layout.global_locked() {
            return Err(Cause::Locked);
        }
        Ok(())
    }

    /// What gets fresh keys.
    pub fn check_format(&self, unit: u32) -> Result<Holders, Cause>
        ensures refused { result_err result ≡ format_refusal (drive self.now.layout self.now.closed N.BOUNDS nothing) unit }
        ensures holders { IfOk result (λ h. h.items ≡ unit_and_ranges (drive self.now.layout self.now.closed N.BOUNDS nothing) unit) }
        ensures spare { IfOk result (λ h. self.now.layout.next + length h.items ≤ 4294967295) }
    {
        self.check_open()?;
        if !self.layout.units.contains(unit) {
            return Err(Cause::NoSuchUnit);
        }
        if self.layout.is_unit_locked(unit) {
            return Err(Cause::Locked);
        }
        let holders = self.layout.unit_and_ranges(unit);
        self.check_serials(holders.len())?;
        Ok(holders)
    }
}
