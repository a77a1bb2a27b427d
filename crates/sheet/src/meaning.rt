//! What the records mean: the rows of a table as records, and back.
ghost use Rattle.std.specs.Prelude.{◌≡◌, ◌<◌, ◌≤◌, ◌^◌, length};
ghost use Rattle.sheet.specs.Loading.{flags_of, kind_said, row_said};
ghost use Rattle.sheet.specs.Saving.{flag_bits, number_with, record_of};

use crate::records::RowRecord;
use layout::rows::{is_selected, standing_of};
use rules::numbering::Bounds;
use rules::row::{Flags, Kind, Row, RowFields};

/// The number that has these bits, bit 0 first.
pub fn number_with(bits: &[bool]) -> u32
    requires { length bits.now ≤ 32 }
    ensures number { result ≡ number_with bits.now }
    ensures small { result < 2 ^ length bits.now }
{
    match bits {
        [] => 0,
        [bit, others @ ..] => {
            let higher = 2 * number_with(others);
            if *bit { higher + 1 } else { higher }
        }
    }
}

/// The record of a row.
pub fn record_of(row: Row, bounds: Bounds) -> RowRecord
    ensures { result ≡ record_of bounds row }
{
    let RowFields {
        unit,
        serial,
        start,
        length,
        flags,
        is_unit_row,
        ..
    } = row.fields(bounds);
    RowRecord {
        unit,
        serial,
        start,
        length,
        flags: flag_bits(flags, is_unit_row),
        zeros: 0,
    }
}

/// The flags as they are written, beside whether it is a unit row.
fn flag_bits(flags: Flags, is_unit_row: bool) -> u16
    ensures { result ≡ number_with (flag_bits flags is_unit_row) }
{
    number_with(&[
        flags.read_lock_enabled,
        flags.write_lock_enabled,
        flags.read_locked,
        flags.write_locked,
        flags.lock_on_reset,
        is_unit_row,
    ]) as u16
}

/// The flags that are written so.
fn flags_of(word: u32) -> Flags
    ensures { result ≡ flags_of word }
{
    Flags {
        read_lock_enabled: is_selected(word, 0),
        write_lock_enabled: is_selected(word, 1),
        read_locked: is_selected(word, 2),
        write_locked: is_selected(word, 3),
        lock_on_reset: is_selected(word, 4),
    }
}

/// What row `index` is by its record.
fn kind_said(index: usize, said: &RowRecord, bounds: Bounds) -> Kind
    ensures { result ≡ kind_said bounds index said.now }
{
    let RowRecord {
        unit,
        serial,
        start,
        length,
        ..
    } = *said;
    if unit == bounds.mark {
        if index == 0 { Kind::Global } else { Kind::Free }
    } else if said.has_unit_bit() {
        Kind::UnitRow { unit }
    } else {
        Kind::RangeRow {
            unit,
            start,
            length,
            serial,
        }
    }
}

/// Row `index` as its record and the mask say.
pub fn row_said(index: usize, said: &RowRecord, bounds: Bounds, mask: u32) -> Row
    requires { index < 17 }
    ensures { result ≡ row_said bounds mask index said.now }
{
    Row {
        kind: kind_said(index, said, bounds),
        standing: standing_of(mask, index),
        flags: flags_of(u32::from(said.flags)),
    }
}
