ghost use Rattle.std.specs.Prelude.{◌≡◌, ◌+◌, ◌<◌, ◌≤◌, ◌++◌, length, map};
ghost use Rattle.layout.specs.View.{content};
ghost use Rattle.rules.specs.declared.row.Sought.TheVariants.{RangeRowOf};
ghost use Rattle.rules.specs.declared.unit.Holder.TheVariants.{TheRow};
ghost use Rattle.rules.specs.FreshKeys.{key_of, rekeyed, units_under_global, renewed_by, unit_and_ranges};
ghost use Rattle.rules.specs.Rows.{all_rows, row, with_kind, with_row, with_serial};
ghost use Rattle.rules.specs.Units.{with_key};

use crate::content::{Layout, Units};
use crate::rows::Rows;
use arrayvec::ArrayVec;
use rules::row::{Kind, Row, Sought};
use rules::unit::{Holder, LogicalUnit};

/// At most sixteen units, or a unit and its range rows.
// Nothing is assumed of the rows, so all seventeen may be range rows of one unit.
pub type Holders = ArrayVec<Holder, 18>;

// Each of these looks its unit or row up: one that is not there has no key, and nothing of it changes.
impl Layout {
    /// What GenKey of this row gives fresh keys, in this order.
    pub fn renewed_by(&self, row: usize) -> Holders
        requires { row < 17 }
        ensures { result.items ≡ renewed_by (content self.now) row }
    {
        let mut holders = ArrayVec::new();
        match self.rows.get(row).kind {
            Kind::Free => {}
            Kind::Global => push_units_under_global(
                &mut holders,
                self.units.as_slice(),
                &self.rows,
            ),
            Kind::UnitRow { unit } => holders.push(Holder::TheUnit { number: unit }),
            Kind::RangeRow { .. } => holders.push(Holder::TheRow { row: row as u32 }),
        }
        holders
    }

    /// What Format of this unit gives fresh keys, in this order.
    pub fn unit_and_ranges(&self, unit: u32) -> Holders
        ensures { result.items ≡ unit_and_ranges (content self.now) unit }
    {
        let mut holders = ArrayVec::new();
        holders.push(Holder::TheUnit { number: unit });
        push_ranges(&mut holders, self.rows.as_slice(), unit);
        holders
    }

    /// The key that a unit or a range row has.
    pub fn key_of(&self, holder: Holder) -> u32
        ensures { result ≡ key_of (content self.now) holder }
    {
        match holder {
            Holder::TheUnit { number } => self.units.get(number).map_or(0, |unit| unit.serial),
            Holder::TheRow { row } => self.rows.as_slice().get(row as usize).map_or(0, Row::key),
        }
    }

    /// Gives a unit or a range row the next serial.
    pub fn rekey(&mut self, holder: Holder)
        requires { self.old.next < 4294967295 }
        ensures units { self.new.units ≡ (rekeyed self.old.next holder (content self.old)).units }
        ensures rows { self.new.rows ≡ (rekeyed self.old.next holder (content self.old)).rows }
        ensures rest { (self.new.next ≡ self.old.next + 1) × (self.new.policy ≡ self.old.policy) }
    {
        let serial = self.fresh_serial();
        match holder {
            Holder::TheUnit { number } => rekey_unit(&mut self.units, number, serial),
            Holder::TheRow { row } => rekey_row(&mut self.rows, row as usize, serial),
        }
    }
}

fn push_units_under_global(holders: &mut Holders, units: &[LogicalUnit], rows: &Rows)
    requires { length holders.old.items + length units.now ≤ 18 }
    ensures { holders.new.items ≡ holders.old.items ++ units_under_global rows.now units.now }
{
    for unit in units {
        if rows.find(Sought::UnitRowOf { unit: unit.number }).is_none() {
            holders.push(Holder::TheUnit {
                number: unit.number,
            });
        }
    }
}

fn push_ranges(holders: &mut Holders, rows: &[Row], unit: u32)
    requires { length holders.old.items + length rows.now ≤ 18 }
    ensures { holders.new.items ≡ holders.old.items ++ map TheRow (all_rows (RangeRowOf unit) rows.now) }
{
    for (number, row) in rows.iter().enumerate() {
        if (Sought::RangeRowOf { unit }).suits(row) {
            holders.push(Holder::TheRow { row: number as u32 });
        }
    }
}

fn rekey_unit(units: &mut Units, number: u32, serial: u32)
    ensures { units.new ≡ with_key number serial units.old }
{
    if let Some(unit) = units.get(number) {
        units.replace(LogicalUnit { serial, ..unit });
    }
}

fn rekey_row(rows: &mut Rows, at: usize, serial: u32)
    ensures { rows.new ≡ with_row at (with_kind (with_serial serial (row at rows.old).kind) (row at rows.old)) rows.old }
{
    if let Some(row) = rows.as_slice().get(at).copied() {
        let kind = under_serial(row.kind, serial);
        rows.put(at, Row { kind, ..row });
    }
}

fn under_serial(kind: Kind, serial: u32) -> Kind
    ensures { result ≡ with_serial serial kind }
{
    match kind {
        Kind::RangeRow {
            unit,
            start,
            length,
            ..
        } => Kind::RangeRow {
            unit,
            start,
            length,
            serial,
        },
        other => other,
    }
}
