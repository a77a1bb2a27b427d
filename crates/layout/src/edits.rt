ghost use Rattle.std.specs.Prelude.{◌≡◌, ◌+◌, ◌<◌, false, if◌then◌else◌, [], ◌∷◌, length, map, replicate, is_some, ◌==◌};
ghost use Rattle.packed.specs.Rising.{lookup};
ghost use Rattle.rules.specs.declared.row.Kind.TheVariants.{RangeRow};
ghost use Rattle.rules.specs.Methods.{reactivated_row};
ghost use Rattle.rules.specs.Rows.{anew, free_row, global_row, numbered, relocked, row, with_flags, with_kind, with_range, with_row};
ghost use Rattle.rules.specs.Units.{exists, with_unit, without_unit};

use crate::content::{Layout, Units};
use crate::rows::Rows;
use rules::row::{Flags, Kind};
use rules::unit::LogicalUnit;

impl Layout {
    /// No units and free rows.
    pub fn blank() -> Layout
        ensures units { result.units ≡ [] }
        ensures rows { result.rows ≡ global_row ∷ replicate 16 free_row }
        ensures rest { (result.next ≡ 1) × (result.policy ≡ 1) }
    {
        Layout {
            units: Units::new(),
            rows: Rows::free(),
            next: 1,
            policy: 1,
        }
    }

    /// The next serial, which then rises by one.
    pub(crate) fn fresh_serial(&mut self) -> u32
        requires { self.old.next < 4294967295 }
        ensures serial { result ≡ self.old.next }
        ensures next { self.new.next ≡ self.old.next + 1 }
        ensures rest { (self.new.units ≡ self.old.units) × (self.new.rows ≡ self.old.rows) × (self.new.policy ≡ self.old.policy) }
    {
        let serial = self.next;
        self.next = serial + 1;
        serial
    }

    /// Adds a unit under a fresh serial.
    pub fn create(&mut self, number: u32, blocks: u64)
        requires room { length self.old.units < 16 }
        requires fresh { exists number self.old.units ≡ false }
        requires spare { self.old.next < 4294967295 }
        ensures units { self.new.units ≡ with_unit (record { number = number; blocks = blocks; serial = self.old.next }) self.old.units }
        ensures next { self.new.next ≡ self.old.next + 1 }
        ensures rest { (self.new.rows ≡ self.old.rows) × (self.new.policy ≡ self.old.policy) }
    {
        let serial = self.fresh_serial();
        self.units.insert(LogicalUnit {
            number,
            blocks,
            serial,
        });
    }

    /// Takes a unit out.
    pub fn delete(&mut self, number: u32) -> Option<LogicalUnit>
        ensures taken { result ≡ lookup (λ u. u.number) number self.old.units }
        ensures there { is_some result ≡ exists number self.old.units }
        ensures units { self.new.units ≡ without_unit number self.old.units }
        ensures rest { (self.new.next ≡ self.old.next) × (self.new.rows ≡ self.old.rows) × (self.new.policy ≡ self.old.policy) }
    {
        self.units.remove(number)
    }

    /// A row is taken for a unit, or given up.
    pub fn turn_into(&mut self, at: usize, kind: Kind)
        requires { at < 17 }
        ensures rows { self.new.rows ≡ with_row at (anew kind (row at self.old.rows)) self.old.rows }
        ensures rest { (self.new.units ≡ self.old.units) × (self.new.next ≡ self.old.next) × (self.new.policy ≡ self.old.policy) }
    {
        self.rows.turn_into(at, kind);
    }

    /// A row is taken for a range of a unit, under a fresh serial.
    pub fn add_range(&mut self, at: usize, unit: u32, start: u64, length: u64)
        requires within { at < 17 }
        requires spare { self.old.next < 4294967295 }
        ensures rows { self.new.rows ≡ with_row at (anew (RangeRow unit start length self.old.next) (row at self.old.rows)) self.old.rows }
        ensures next { self.new.next ≡ self.old.next + 1 }
        ensures rest { (self.new.units ≡ self.old.units) × (self.new.policy ≡ self.old.policy) }
    {
        let serial = self.fresh_serial();
        self.rows.turn_into(
            at,
            Kind::RangeRow {
                unit,
                start,
                length,
                serial,
            },
        );
    }

    /// Puts a range row over other blocks.
    pub fn set_range(&mut self, at: usize, start: u64, length: u64)
        requires { at < 17 }
        ensures rows { self.new.rows ≡ with_row at (with_kind (with_range start length (row at self.old.rows).kind) (row at self.old.rows)) self.old.rows }
        ensures rest { (self.new.units ≡ self.old.units) × (self.new.next ≡ self.old.next) × (self.new.policy ≡ self.old.policy) }
    {
        self.rows.set_range(at, start, length);
    }

    pub fn set_flags(&mut self, at: usize, flags: Flags)
        requires { at < 17 }
        ensures rows { self.new.rows ≡ with_row at (with_flags flags (row at self.old.rows)) self.old.rows }
        ensures rest { (self.new.units ≡ self.old.units) × (self.new.next ≡ self.old.next) × (self.new.policy ≡ self.old.policy) }
    {
        self.rows.set_flags(at, flags);
    }

    /// The drive was reset.
    pub fn reset(&mut self)
        ensures rows { self.new.rows ≡ map (λ r. with_flags (relocked r.flags) r) self.old.rows }
        ensures rest { (self.new.units ≡ self.old.units) × (self.new.next ≡ self.old.next) × (self.new.policy ≡ self.old.policy) }
    {
        self.rows.reset();
    }

    /// Puts the rows in Single User Mode that are selected, and no others. Where none is, the policy is 1.
    pub fn reactivate(&mut self, selection: u32, policy: u16)
        ensures rows { self.new.rows ≡ map (λ entry. reactivated_row selection entry.0 entry.1) (numbered self.old.rows) }
        ensures policy { self.new.policy ≡ (if selection == 0 then 1 else policy) }
        ensures rest { (self.new.units ≡ self.old.units) × (self.new.next ≡ self.old.next) }
    {
        self.rows.reactivate(selection);
        self.policy = if selection == 0 { 1 } else { policy };
    }
}
