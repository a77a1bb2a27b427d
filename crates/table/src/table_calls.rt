//! The calls of a table: each makes its checks, and then changes the layout and the vault.
ghost use Rattle.std.specs.Prelude.{◌∷◌};
ghost use Rattle.layout.specs.View.{drive};

use crate::calls::Calls;
use crate::refusals::check_room;
use crate::session::{ReadingSession, Refused, WritingSession};
use crate::state::Table;
use rules::access::Access;
use rules::cause::Cause;
use rules::numbering::Numbering;
use rules::row::{Flags, Kind, Row, RowFields, Standing};
use rules::unit::{Control, LogicalUnit};
use vault::Vault;

impl<'v, V: Vault, N: Numbering> Calls for Table<'v, V, N> {
    ghost model = { λ t. drive t.content.layout t.content.closed N.Numbering.BOUNDS (V.KeySet.meaning t.vault.now) };

    ghost lenders = { λ t. t.vault.ghost_name ∷ V.KeySet.lenders t.vault.now };

    fn assign(
        &mut self,
        session: &WritingSession,
        unit: u32,
        start: u64,
        length: u64,
        standing: Standing,
    ) -> Result<(u32, bool), Cause> {
        let (row, is_unit_row) = self.content.check_assign(
            self.unused_keys(),
            session.caller,
            unit,
            start,
            length,
            standing,
        )?;
        if is_unit_row {
            self.content
                .layout
                .turn_into(row as usize, Kind::UnitRow { unit });
        } else {
            self.put_fresh_key();
            self.content
                .layout
                .add_range(row as usize, unit, start, length);
        }
        Ok((row, is_unit_row))
    }

    fn deassign(&mut self, session: &WritingSession, row: u32, keep: bool) -> Result<(), Cause> {
        self.content.check_deassign(session.caller, row, keep)?;
        self.give_up(row as usize, keep);
        Ok(())
    }

    fn set_range(
        &mut self,
        session: &WritingSession,
        row: u32,
        start: u64,
        length: u64,
    ) -> Result<(), Cause> {
        self.content
            .check_set_range(session.caller, row, start, length)?;
        self.content.layout.set_range(row as usize, start, length);
        Ok(())
    }

    fn set_locks(&mut self, session: &WritingSession, row: u32, flags: Flags) -> Result<(), Cause> {
        self.content.check_set_locks(session.caller, row)?;
        self.content.layout.set_flags(row as usize, flags);
        Ok(())
    }

    fn gen_key(&mut self, session: &WritingSession, row: u32) -> Result<(), Cause> {
        let holders = self.content.check_gen_key(session.caller, row)?;
        self.give_fresh_keys(holders.as_slice());
        Ok(())
    }

    fn erase(&mut self, session: &WritingSession, row: u32) -> Result<(), Cause> {
        let holders = self.content.check_erase(session.caller, row)?;
        self.give_fresh_keys(holders.as_slice());
        self.content.layout.set_flags(row as usize, Flags::BLANK);
        Ok(())
    }

    fn reactivate(
        &mut self,
        session: WritingSession,
        selection: u32,
        policy: u32,
    ) -> Result<u32, Refused> {
        if let Err(cause) = self
            .content
            .check_reactivate(session.caller, selection, policy)
        {
            return Err(Refused { cause, session });
        }
        // At most 1.
        self.content.layout.reactivate(selection, policy as u16);
        Ok(selection.count_ones())
    }

    fn create(&mut self, number: u32, blocks: u64) -> Result<(), Cause> {
        self.content
            .check_create(self.unused_keys(), number, blocks)?;
        self.put_fresh_key();
        self.content.layout.create(number, blocks);
        Ok(())
    }

    fn delete(&mut self, number: u32) -> Result<(), Cause> {
        self.content.check_delete(number)?;
        if let Some(unit) = self.content.layout.delete(number) {
            let _ = self.vault.drop_key(unit.serial);
        }
        Ok(())
    }

    fn format(&mut self, unit: u32) -> Result<(), Cause> {
        let holders = self.content.check_format(unit)?;
        self.give_fresh_keys(holders.as_slice());
        Ok(())
    }

    // Reset is shown an open session, and any will do.
    fn reset(&mut self, _session: &WritingSession) -> Result<(), Cause> {
        self.content.check_open()?;
        self.content.layout.reset();
        Ok(())
    }

    fn access(&self, access: Access, unit: u32, first: u64, count: u64) -> Result<(), Cause> {
        self.content.check_open()?;
        let found = self
            .content
            .layout
            .units
            .get(unit)
            .ok_or(Cause::NoSuchUnit)?;
        if count == 0 || found.is_passed_by(first, count) {
            return Err(Cause::BlockOutOfRange);
        }
        match self.content.layout.denial(access, unit, first, count) {
            Some(cause) => Err(cause),
            None => Ok(()),
        }
    }

    fn unused(&self) -> Result<u32, Cause> {
        self.content.check_open()?;
        Ok(self.unused_keys())
    }

    fn controls(&self, number: u32, block: u64) -> Result<Control, Cause> {
        self.content.check_open()?;
        let unit = self
            .content
            .layout
            .units
            .get(number)
            .ok_or(Cause::NoSuchUnit)?;
        if unit.blocks <= block {
            return Err(Cause::BlockOutOfRange);
        }
        Ok(self.content.layout.control(unit, block))
    }

    // Any session can read, so its caller is not asked for.
    fn read_row(&self, _session: &ReadingSession, row: u32) -> Result<RowFields, Cause> {
        self.content.check_open()?;
        if row > 16 {
            return Err(Cause::NoSuchRow);
        }
        Ok(self.content.layout.rows.get(row as usize).fields(N::BOUNDS))
    }

    fn save(&self, out: &mut [u8]) -> Result<u32, Cause> {
        self.content.check_open()?;
        let total = sheet::total(&self.content.layout);
        check_room(out, total)?;
        sheet::save(&self.content.layout, N::BOUNDS, out);
        Ok(total)
    }

    fn describe(&self, out: &mut [u8]) -> Result<(), Cause> {
        self.content.check_open()?;
        check_room(out, 20)?;
        let capacity = self.vault.capacity();
        sheet::describe(&self.content.layout.rows, capacity, self.unused_keys(), out);
        Ok(())
    }

    fn holds(&self, serial: u32) -> bool {
        self.vault.holds(serial)
    }

    fn units(&self) -> &[LogicalUnit] {
        self.content.layout.units.as_slice()
    }

    fn rows(&self) -> &[Row] {
        self.content.layout.rows.as_slice()
    }
}
