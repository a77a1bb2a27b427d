//! Reading a sheet, and what is wrong with it.
ghost use Rattle.std.specs.Prelude.{◌≡◌, ◌+◌, ◌*◌, ◌<◌, ◌≤◌, not, List, IfOk, IfSome, is_some, length, true};
ghost use Rattle.std.specs.Result.{result_err};
ghost use Rattle.std.specs.List.{enumerate_from, list_any};
ghost use Rattle.sheet.specs.Format.{header_of, rows_on, unit_at, units_on};
ghost use Rattle.vault.specs.Serials.{distinct};
ghost use Rattle.rules.specs.Rows.{numbered};
ghost use Rattle.rules.specs.Sound.{serials};
ghost use Rattle.sheet.specs.Layouts.{Describes};
ghost use Rattle.sheet.specs.Loading.{header_is_faulty, kind_faults, one_of, records_are_faulty, relations_are_faulty, row_faults, rows_said, sheet_refusal, unit_faults};

use crate::meaning::row_said;
use crate::records::{Header, RowRecord, is_faulty_unit, unit_at};
use arrayvec::ArrayVec;
use layout::content::{Layout, Units};
use layout::rows::Rows;
use packed::SortedList;
use rules::cause::Cause;
use rules::numbering::Bounds;
use rules::row::{Kind, Sought};
use rules::unit::LogicalUnit;
use vault::serials::all_distinct;

/// The layout that a sheet describes, or what is wrong with the sheet.
pub fn load(sheet: &[u8], bounds: Bounds) -> Result<Layout, Cause>
    ensures refused { result_err result ≡ sheet_refusal bounds sheet.now }
    ensures layout { IfOk result (λ l. Describes bounds sheet.now l) }
    ensures serials { IfOk result (λ l. distinct (serials l.units l.rows) ≡ true) }
{
    let header = good_header(sheet, bounds).ok_or(Cause::SheetHeader)?;
    let count = usize::from(header.unit_count);
    let units = read_units(sheet, count);
    let records = read_rows(sheet, count);
    if records_are_faulty(units.as_slice(), records.as_slice(), bounds, header.next) {
        return Err(Cause::SheetField);
    }
    let rows = rows_said(records.as_slice(), bounds, header.mask);
    in_relation(units, rows, header).ok_or(Cause::SheetRelation)
}

/// The header of a sheet, where nothing is wrong with it.
#[tactic(auto, unfolding(crate::specs::Loading::header_is_faulty))]
fn good_header(sheet: &[u8], bounds: Bounds) -> Option<Header>
    ensures good { is_some result ≡ not (header_is_faulty bounds (length sheet.now) (header_of sheet.now)) }
    ensures header { IfSome result (λ h. h ≡ header_of sheet.now) }
    ensures few { IfSome result (λ h. h.unit_count ≤ 16) }
    ensures room { IfSome result (λ h. length sheet.now ≡ 576 + 16 * h.unit_count) }
{
    if sheet.len() < 32 {
        return None;
    }
    let header = Header::read(sheet);
    if header.is_faulty(bounds, sheet.len()) {
        return None;
    }
    Some(header)
}

/// The units on a sheet, whose header counts so many.
#[tactic(auto, unfolding(crate::specs::Format::units_on))]
fn read_units(sheet: &[u8], count: usize) -> ArrayVec<LogicalUnit, 16>
    requires counted { count ≡ (header_of sheet.now).unit_count }
    requires few { count ≤ 16 }
    requires room { 32 + 16 * count ≤ length sheet.now }
    ensures { result.items ≡ units_on sheet.now }
{
    let mut units = ArrayVec::new();
    for k in 0..count {
        units.push(unit_at(sheet, 32 + 16 * k));
    }
    units
}

/// The records of the rows on a sheet, whose header counts so many units.
#[tactic(auto, unfolding(crate::specs::Format::rows_on))]
fn read_rows(sheet: &[u8], count: usize) -> ArrayVec<RowRecord, 17>
    requires counted { count ≡ (header_of sheet.now).unit_count }
    requires room { 576 + 16 * count ≤ length sheet.now }
    ensures records { result.items ≡ rows_on sheet.now }
    ensures seventeen { length result.items ≡ 17 }
{
    let mut rows = ArrayVec::new();
    for i in 0..17 {
        rows.push(RowRecord::read(sheet, 32 + 16 * count + 32 * i));
    }
    rows
}

/// The rows as their records and the mask say.
fn rows_said(records: &[RowRecord], bounds: Bounds, mask: u32) -> Rows
    requires { length records.now ≡ 17 }
    ensures { result ≡ rows_said bounds mask records.now }
{
    let mut rows = Rows::free();
    for (i, said) in records.iter().enumerate() {
        rows.put(i, row_said(i, said, bounds, mask));
    }
    rows
}

/// Whether something is wrong with a record in itself.
#[tactic(auto, unfolding(crate::specs::Loading::records_are_faulty))]
fn records_are_faulty(units: &[LogicalUnit], rows: &[RowRecord], bounds: Bounds, next: u32) -> bool
    ensures { result ≡ records_are_faulty bounds next units.now rows.now }
{
    units_are_faulty(units, bounds, next) || rows_are_faulty(rows, bounds, next)
}

fn units_are_faulty(units: &[LogicalUnit], bounds: Bounds, next: u32) -> bool
    ensures { result ≡ list_any (λ u. one_of (unit_faults bounds next u)) units.now }
{
    units.iter().any(|unit| is_faulty_unit(unit, bounds, next))
}

fn rows_are_faulty(rows: &[RowRecord], bounds: Bounds, next: u32) -> bool
    ensures { result ≡ list_any (λ entry. one_of (row_faults bounds next entry.0 entry.1)) (enumerate_from 0 rows.now) }
{
    rows.iter()
        .enumerate()
        .any(|(i, row)| row.is_faulty(i, bounds, next))
}

/// The layout of these units and rows, where nothing is wrong between them.
#[tactic(auto, unfolding(crate::specs::Loading::relations_are_faulty))]
fn in_relation(units: ArrayVec<LogicalUnit, 16>, rows: Rows, header: Header) -> Option<Layout>
    ensures refused { is_some result ≡ not (relations_are_faulty units.items rows) }
    ensures serials { IfSome result (λ l. distinct (serials l.units l.rows) ≡ true) }
    ensures layout { IfSome result (λ l. (l.units ≡ units.items) × (l.rows ≡ rows) × (l.next ≡ header.next) × (l.policy ≡ header.policy)) }
{
    let layout = Layout {
        units: SortedList::from_rising(units)?,
        rows,
        next: header.next,
        policy: header.policy,
    };
    if !all_distinct(layout.serials().as_slice())
        || rows_are_misplaced(&layout.units, &layout.rows)
    {
        return None;
    }
    Some(layout)
}

fn rows_are_misplaced(units: &Units, rows: &Rows) -> bool
    ensures { result ≡ list_any (λ entry. one_of (kind_faults units.now rows.now entry.0 entry.1.kind)) (numbered rows.now) }
{
    rows.as_slice()
        .iter()
        .enumerate()
        .any(|(i, row)| is_misplaced(units, rows, i, row.kind))
}

/// Whether something is wrong between row `index`, of this kind, and the units and other rows.
fn is_misplaced(units: &Units, rows: &Rows, index: usize, kind: Kind) -> bool
    requires { index < 17 }
    ensures { result ≡ one_of (kind_faults units.now rows.now index kind) }
{
    match kind {
        Kind::Free | Kind::Global => false,
        Kind::UnitRow { unit } => {
            let unit_row = Sought::UnitRowOf { unit };
            !units.contains(unit) || rows.without(index).find(unit_row).is_some()
        }
        Kind::RangeRow {
            unit,
            start,
            length,
            ..
        } => {
            let Some(its_unit) = units.get(unit) else {
                return true;
            };
            let sharing = Sought::RangeSharing {
                unit,
                start,
                length,
            };
            rows.find(Sought::UnitRowOf { unit }).is_none()
                || its_unit.is_passed_by(start, length)
                || rows.without(index).find(sharing).is_some()
        }
    }
}
