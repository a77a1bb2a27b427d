//! The records of a sheet, each number as it stands there.
ghost use Rattle.std.specs.Prelude.{◌≡◌, ◌+◌, ◌≤◌, ◌<◌, length};
ghost use Rattle.sheet.specs.Format.{header_fields, header_of, row_at, row_fields, unit_at, unit_fields};
ghost use Rattle.sheet.specs.Loading.{bad_serial, has_unit_bit, header_is_faulty, is_bare, one_of, row_faults, unit_faults};

use fields::{Field, be, u16_at, u32_at, u48_at, u64_at};
use layout::rows::is_selected;
use rules::numbering::Bounds;
use rules::unit::LogicalUnit;

/// Lock on reset alone, in a row that is no unit row.
const BLANK: u16 = 0x10;

/// What stands before the units and the rows.
#[derive(Clone, Copy)]
pub struct Header {
    pub form: u16,
    pub numbering: u16,
    pub unit_count: u16,
    pub row_count: u16,
    pub units_at: u32,
    pub rows_at: u32,
    pub total: u32,
    pub next: u32,
    pub mask: u32,
    pub policy: u16,
    pub zero: u16,
}

/// A row. A unit's record has no other numbers than the unit.
#[derive(Clone, Copy, Default)]
pub struct RowRecord {
    pub unit: u32,
    pub serial: u32,
    pub start: u64,
    pub length: u64,
    pub flags: u16,
    /// The last six bytes.
    pub zeros: u64,
}

impl Header {
    /// The header that a sheet begins with.
    pub fn read(sheet: &[u8]) -> Header
        requires { 32 ≤ length sheet.now }
        ensures { result ≡ header_of sheet.now }
    {
        Header {
            form: u16_at(sheet, 0),
            numbering: u16_at(sheet, 2),
            unit_count: u16_at(sheet, 4),
            row_count: u16_at(sheet, 6),
            units_at: u32_at(sheet, 8),
            rows_at: u32_at(sheet, 12),
            total: u32_at(sheet, 16),
            next: u32_at(sheet, 20),
            mask: u32_at(sheet, 24),
            policy: u16_at(sheet, 28),
            zero: u16_at(sheet, 30),
        }
    }

    /// Its numbers as they are written.
    pub fn fields(&self) -> [Field; 11]
        ensures { result ≡ header_fields self.now }
    {
        [
            be(2, u64::from(self.form)),
            be(2, u64::from(self.numbering)),
            be(2, u64::from(self.unit_count)),
            be(2, u64::from(self.row_count)),
            be(4, u64::from(self.units_at)),
            be(4, u64::from(self.rows_at)),
            be(4, u64::from(self.total)),
            be(4, u64::from(self.next)),
            be(4, u64::from(self.mask)),
            be(2, u64::from(self.policy)),
            be(2, u64::from(self.zero)),
        ]
    }

    /// Whether something is wrong with it, for a sheet of this length.
    #[tactic(auto, unfolding(crate::specs::Loading::header_is_faulty))]
    pub fn is_faulty(&self, bounds: Bounds, len: usize) -> bool
        ensures { result ≡ header_is_faulty bounds len self.now }
    {
        let units = u32::from(self.unit_count);
        len < 32
            || self.form != 1
            || self.numbering != bounds.code
            || self.unit_count > 16
            || self.row_count != 17
            || self.units_at != 32
            || self.rows_at != 32 + 16 * units
            || self.total != 576 + 16 * units
            || len != self.total as usize
            || self.next == 0
            || self.mask >= 0x2_0000
            || self.policy > 1
            || self.policy == 0 && self.mask == 0
            || self.zero != 0
    }
}

/// The unit whose record begins at a place.
pub fn unit_at(sheet: &[u8], at: usize) -> LogicalUnit
    requires { at + 16 ≤ length sheet.now }
    ensures { result ≡ unit_at at sheet.now }
{
    LogicalUnit {
        number: u32_at(sheet, at),
        serial: u32_at(sheet, at + 4),
        blocks: u64_at(sheet, at + 8),
    }
}

/// Its numbers as they are written.
pub fn unit_fields(unit: &LogicalUnit) -> [Field; 3]
    ensures { result ≡ unit_fields unit.now }
{
    [
        be(4, u64::from(unit.number)),
        be(4, u64::from(unit.serial)),
        be(8, unit.blocks),
    ]
}

/// Whether something is wrong with a unit in itself.
pub fn is_faulty_unit(unit: &LogicalUnit, bounds: Bounds, next: u32) -> bool
    ensures { result ≡ one_of (unit_faults bounds next unit.now) }
{
    !bounds.is_valid(unit.number)
        || unit.blocks < 1
        || unit.blocks > 0x1_0000_0000_0000
        || is_bad_serial(unit.serial, next)
}

/// Whether the serial cannot have been given, as the next one stands.
fn is_bad_serial(serial: u32, next: u32) -> bool
    ensures { result ≡ bad_serial next serial }
{
    serial == 0 || serial >= next
}

impl RowRecord {
    /// The row whose record begins at a place.
    pub fn read(sheet: &[u8], at: usize) -> RowRecord
        requires { at + 32 ≤ length sheet.now }
        ensures { result ≡ row_at at sheet.now }
    {
        RowRecord {
            unit: u32_at(sheet, at),
            serial: u32_at(sheet, at + 4),
            start: u64_at(sheet, at + 8),
            length: u64_at(sheet, at + 16),
            flags: u16_at(sheet, at + 24),
            zeros: u48_at(sheet, at + 26),
        }
    }

    /// Its numbers as they are written.
    pub fn fields(&self) -> [Field; 6]
        ensures { result ≡ row_fields self.now }
    {
        [
            be(4, u64::from(self.unit)),
            be(4, u64::from(self.serial)),
            be(8, self.start),
            be(8, self.length),
            be(2, u64::from(self.flags)),
            be(6, self.zeros),
        ]
    }

    /// Whether it says that it is a unit row.
    pub fn has_unit_bit(&self) -> bool
        ensures { result ≡ has_unit_bit self.now }
    {
        is_selected(u32::from(self.flags), 5)
    }

    /// Whether it has no range and no key.
    fn is_bare(&self) -> bool
        ensures { result ≡ is_bare self.now }
    {
        self.serial == 0 && self.start == 0 && self.length == 0
    }

    /// Whether something is wrong with it in itself, as row `index`.
    #[tactic(auto, unfolding(crate::specs::Saving::number_with))]
    pub fn is_faulty(&self, index: usize, bounds: Bounds, next: u32) -> bool
        ensures { result ≡ one_of (row_faults bounds next index self.now) }
    {
        let has_mark = self.unit == bounds.mark;
        let is_unit_row = self.has_unit_bit();
        !has_mark && !bounds.is_valid(self.unit)
            || self.flags >= 64
            || self.zeros != 0
            || index == 0 && !has_mark
            || has_mark && is_unit_row
            || has_mark && index != 0 && self.flags != BLANK
            || (has_mark || is_unit_row) && !self.is_bare()
            || !has_mark && !is_unit_row && is_bad_serial(self.serial, next)
    }
}
