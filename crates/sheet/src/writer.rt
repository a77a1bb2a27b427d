//! Writing a sheet.
ghost use Rattle.std.specs.Prelude.{◌≡◌, ◌+◌, ◌*◌, ◌≤◌, Bool, false, length};
ghost use Rattle.std.specs.List.{flat_map};
ghost use Rattle.vault.specs.Kinds.{nothing};
ghost use Rattle.vault.specs.Meaning.{Meaning};
ghost use Rattle.fields.specs.Fields.{written};
ghost use Rattle.layout.specs.View.{drive};
ghost use Rattle.sheet.specs.Format.{row_bytes, total_beside, unit_bytes};
ghost use Rattle.sheet.specs.Saving.{filled, header_for, mask_of, record_of, sheet};

use crate::meaning::{number_with, record_of};
use crate::records::{Header, unit_fields};
use arrayvec::ArrayVec;
use fields::write;
use layout::content::Layout;
use rules::numbering::Bounds;
use rules::row::{Row, Standing};
use rules::unit::LogicalUnit;

/// How many bytes the sheet of a layout has.
pub fn total(layout: &Layout) -> u32
    ensures { result ≡ total_beside (length layout.now.units) }
{
    576 + 16 * layout.units.len() as u32
}

/// Writes the sheet of a layout to the start of a buffer.
pub fn save(layout: &Layout, bounds: Bounds, out: &mut [u8])
    requires { total_beside (length layout.now.units) ≤ length out.old }
    ensures { (closed : Bool) (vault : Meaning) → out.new ≡ filled (sheet (drive layout.now closed bounds vault)) out.old }
{
    let units_at = write(out, 0, &header_of(layout, bounds).fields());
    let rows_at = write_units(out, units_at, layout.units.as_slice());
    write_rows(out, rows_at, layout.rows.as_slice(), bounds);
}

/// The header of a layout's sheet.
fn header_of(layout: &Layout, bounds: Bounds) -> Header
    ensures { result ≡ header_for (drive layout.now false bounds nothing) }
{
    let units = layout.units.len() as u16;
    Header {
        form: 1,
        numbering: bounds.code,
        unit_count: units,
        row_count: 17,
        units_at: 32,
        rows_at: 32 + 16 * u32::from(units),
        total: total(layout),
        next: layout.next,
        mask: mask_of(layout.rows.as_slice()),
        policy: layout.policy,
        zero: 0,
    }
}

/// The number in which bit r is set for a row r in Single User Mode.
fn mask_of(rows: &[Row]) -> u32
    requires { length rows.now ≤ 17 }
    ensures { result ≡ mask_of rows.now }
{
    let mut bits = ArrayVec::<bool, 17>::new();
    for row in rows {
        bits.push(matches!(row.standing, Standing::SingleUser));
    }
    number_with(bits.as_slice())
}

/// Writes units one after another from a place on, and tells the place after them.
fn write_units(out: &mut [u8], at: usize, units: &[LogicalUnit]) -> usize
    requires { at + 16 * length units.now ≤ length out.old }
    ensures end { result ≡ at + 16 * length units.now }
    ensures bytes { out.new ≡ written at (flat_map unit_bytes units.now) out.old }
{
    let mut end = at;
    for unit in units {
        end = write(out, end, &unit_fields(unit));
    }
    end
}

/// Writes rows one after another from a place on.
fn write_rows(out: &mut [u8], at: usize, rows: &[Row], bounds: Bounds)
    requires { at + 32 * length rows.now ≤ length out.old }
    ensures { out.new ≡ written at (flat_map (λ r. row_bytes (record_of bounds r)) rows.now) out.old }
{
    let mut end = at;
    for row in rows {
        end = write(out, end, &record_of(*row, bounds).fields());
    }
}
