ghost use Rattle.std.specs.Prelude.{◌≡◌, ℕ, ◌+◌, ◌<◌, ◌≤◌, ◌++◌, ◌∷◌, cond, length, map};
ghost use Rattle.std.specs.List.{list_any};
ghost use Rattle.rules.specs.declared.row.Sought.TheVariants.{RangeRowOf};
ghost use Rattle.rules.specs.Methods.{ends_past};
ghost use Rattle.rules.specs.Rows.{all_rows, controlling_row, is_range_row, locked, row, row_under, unit_or};
ghost use Rattle.rules.specs.Questions.{control_of};
ghost use Rattle.rules.specs.Sound.{serials, serial_of, row_key};

use crate::content::Layout;
use arrayvec::ArrayVec;
use rules::row::{Kind, Row, Sought};
use rules::unit::{Control, LogicalUnit};

impl Layout {
    /// Whether the Global Range row is locked.
    pub fn global_locked(&self) -> bool
        ensures { result ≡ locked (row 0 self.now.rows).flags }
    {
        self.rows.get(0).flags.is_locked()
    }

    /// Whether a range ends past the unit.
    pub fn ends_past(&self, unit: u32, start: u64, length: u64) -> bool
        ensures { result ≡ ends_past self.now.units unit start length }
    {
        // A range row's unit is always there, which nothing here relies on.
        let unit = self.units.get(unit).unwrap_or_default();
        unit.is_passed_by(start, length)
    }

    /// The row that a unit is under: its unit row, else row 0.
    pub fn row_under(&self, unit: u32) -> usize
        ensures row { result ≡ row_under self.now.rows unit }
        ensures within { result < 17 }
    {
        self.rows.find(Sought::UnitRowOf { unit }).unwrap_or(0)
    }

    /// The row that takes the blocks of a row over, which leaves: the unit row of its unit for a range row, else row 0.
    pub fn receiver(&self, leaving: Kind) -> usize
        ensures row { (mark : ℕ) → result ≡ cond (is_range_row leaving) (row_under self.now.rows (unit_or leaving mark)) 0 }
        ensures within { result < 17 }
    {
        match leaving {
            Kind::RangeRow { unit, .. } => self.row_under(unit),
            _ => 0,
        }
    }

    /// Whether the row that a unit is under, or a range row of it, is locked.
    pub fn is_unit_locked(&self, unit: u32) -> bool
        ensures { result ≡ list_any (λ r. locked (row r self.now.rows).flags) (row_under self.now.rows unit ∷ all_rows (RangeRowOf unit) self.now.rows) }
    {
        self.rows.get(self.row_under(unit)).flags.is_locked() || self.rows.is_range_locked(unit)
    }

    /// The range row of the unit that covers the block, else the row that the unit is under.
    pub(crate) fn controlling_row(&self, unit: u32, block: u64) -> usize
        ensures row { result ≡ controlling_row self.now.rows unit block }
        ensures within { result < 17 }
    {
        self.rows
            .find(Sought::RangeOver { unit, block })
            .unwrap_or_else(|| self.row_under(unit))
    }

    /// The row that controls a block of a unit, and the block's key: that range row's, else the unit's.
    pub fn control(&self, unit: LogicalUnit, block: u64) -> Control
        ensures { result ≡ control_of self.now.rows unit block }
    {
        let row = self.controlling_row(unit.number, block);
        let serial = match self.rows.get(row).kind {
            Kind::RangeRow { serial, .. } => serial,
            _ => unit.serial,
        };
        // A row's number is below 17: a conversion that could fail would have a case that never comes.
        Control {
            row: row as u32,
            serial,
        }
    }

    /// The serials of the units, and then those of the rows, with 0 for a row that has no key of its own.
    pub fn serials(&self) -> ArrayVec<u32, 33>
        ensures { result.items ≡ serials self.now.units self.now.rows }
    {
        let mut all = ArrayVec::new();
        push_units(&mut all, self.units.as_slice());
        push_rows(&mut all, self.rows.as_slice());
        all
    }
}

fn push_units(all: &mut ArrayVec<u32, 33>, units: &[LogicalUnit])
    requires { length all.old.items + length units.now ≤ 33 }
    ensures { all.new.items ≡ all.old.items ++ map serial_of units.now }
{
    for unit in units {
        all.push(unit.serial);
    }
}

fn push_rows(all: &mut ArrayVec<u32, 33>, rows: &[Row])
    requires { length all.old.items + length rows.now ≤ 33 }
    ensures { all.new.items ≡ all.old.items ++ map row_key rows.now }
{
    for row in rows {
        all.push(row.key());
    }
}
