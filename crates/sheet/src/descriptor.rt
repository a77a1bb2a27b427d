//! Writing the descriptor.
ghost use Rattle.std.specs.Prelude.{◌≡◌, ◌≤◌, length};
ghost use Rattle.std.specs.List.{list_any};
ghost use Rattle.fields.specs.Fields.{bytes_of};
ghost use Rattle.rules.specs.Rows.{is_range_row};
ghost use Rattle.sheet.specs.Saving.{descriptor_fields, filled, support};

use fields::{Field, be, write};
use layout::rows::Rows;
use rules::row::Kind;

/// Writes the descriptor of a drive with these rows to the start of a buffer.
pub fn describe(rows: &Rows, capacity: u32, unused: u32, out: &mut [u8])
    requires { 20 ≤ length out.old }
    ensures { out.new ≡ filled (bytes_of (descriptor_fields rows.now capacity unused)) out.old }
{
    write(out, 0, &descriptor_fields(rows, capacity, unused));
}

fn descriptor_fields(rows: &Rows, capacity: u32, unused: u32) -> [Field; 6]
    ensures { result ≡ descriptor_fields rows.now capacity unused }
{
    [
        be(4, 0x0403_2210),
        be(1, support(rows)),
        be(3, 0),
        be(4, u64::from(capacity)),
        be(4, u64::from(unused)),
        be(4, 15),
    ]
}

/// Bit 7: range rows are supported. Bit 6: one stands. Bit 5: Assign can take a single-user row.
fn support(rows: &Rows) -> u64
    ensures { result ≡ support rows.now }
{
    if range_stands(rows) { 0xE0 } else { 0xA0 }
}

fn range_stands(rows: &Rows) -> bool
    ensures { result ≡ list_any (λ r. is_range_row r.kind) rows.now }
{
    rows.as_slice()
        .iter()
        .any(|row| matches!(row.kind, Kind::RangeRow { .. }))
}
