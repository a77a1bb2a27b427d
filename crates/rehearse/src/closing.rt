use rules::ask::{Ask, Question, Told};
use rules::numbering::Bounds;
use rules::row::{Kind, Row};
use rules::unit::LogicalUnit;
use shown::{ShownReply, ShownRow};
use std::alloc::{AllocError, Global};
use std::fmt;
use table::calls::Calls;

/// Lists the keys of the table in place of what was listed: the units' in rising order, then the range rows'.
pub fn list_keys<C: Calls>(table: &C, keys: &mut Vec<u32>) -> Result<(), AllocError> {
    keys.clear();
    for unit in table.units() {
        keys.push(unit.serial)?;
    }
    for row in table.rows() {
        if let Kind::RangeRow { serial, .. } = row.kind {
            keys.push(serial)?;
        }
    }
    Ok(())
}

/// The keys that the vault holds, in rising order: of the table's, and of those that it was given, as a closed table has none.
fn held<C: Calls>(heap: Global, table: &C, given: &[u32]) -> Result<Vec<u32>, AllocError> {
    let mut keys = Vec::new(heap);
    list_keys(table, &mut keys)?;
    let mut held = Vec::new(heap);
    for serial in keys.iter().chain(given) {
        if table.holds(*serial) && !held.contains(serial) {
            held.push(*serial)?;
        }
    }
    held.sort_unstable();
    Ok(held)
}

/// Serials with a comma between, or `none`: a form of its own, which no derive knows.
#[derive(Clone, Copy)]
struct Serials<'a>(&'a [u32]);

impl fmt::Display for Serials<'_> {
    fn fmt<W: fmt::Write>(&self, f: &mut fmt::Formatter<W>) -> fmt::Result {
        match self.0 {
            [] => write!(f, "none"),
            [first, rest @ ..] => {
                write!(f, "{first}")?;
                for serial in rest {
                    write!(f, ", {serial}")?;
                }
                Ok(())
            }
        }
    }
}

/// Prints how the rehearsal leaves the drive: units, rows, keys held, keys eradicated in the order in which they went,
/// and the unused count. The vault was given these serials.
pub fn report<C: Calls>(
    rt: &HostRuntime,
    table: &C,
    bounds: Bounds,
    given: &[u32],
    gone: &[u32],
) -> anyhow::Result<()> {
    println!(rt; "\nclosing report")?;
    units(rt, table.units())?;
    rows(rt, table.rows(), bounds)?;
    let held = held(rt.alloc(), table, given)?;
    let held = Serials(held.as_slice());
    let gone = Serials(gone);
    let unused = ShownReply {
        ask: Ask::Question(Question::Unused),
        reply: table.unused().map(Told::Unused),
        mark: bounds.mark,
        with_status: true,
    };
    println!(rt; "  keys held: {held}\n  keys eradicated, in order: {gone}\n  unused: {unused}")?;
    Ok(())
}

fn units(rt: &HostRuntime, units: &[LogicalUnit]) -> anyhow::Result<()> {
    let count = units.len();
    println!(rt; "  units: {count}")?;
    for unit in units {
        let LogicalUnit {
            number,
            blocks,
            serial,
        } = *unit;
        println!(rt; "    unit {number}: {blocks} blocks, key {serial}")?;
    }
    Ok(())
}

/// The rows that are not free, each as a row is read.
fn rows(rt: &HostRuntime, rows: &[Row], bounds: Bounds) -> anyhow::Result<()> {
    println!(rt; "  rows:")?;
    for (number, row) in rows.iter().enumerate() {
        if is_free(row) {
            continue;
        }
        let row = ShownRow {
            fields: row.fields(bounds),
            number,
            mark: bounds.mark,
        };
        println!(rt; "    row {number}: {row}")?;
    }
    let free = rows.iter().filter(|row| is_free(row)).count();
    println!(rt; "    free: {free}")?;
    Ok(())
}

fn is_free(row: &Row) -> bool {
    matches!(row.kind, Kind::Free)
}
