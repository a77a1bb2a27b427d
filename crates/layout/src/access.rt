ghost use Rattle.std.specs.Prelude.{◌≡◌, ◌+◌, ◌^◌, ◌<◌};
ghost use Rattle.layout.specs.Edges.{nearer, edge_after, next_edge};
ghost use Rattle.rules.specs.Questions.{first_locked, denied_at};

use crate::content::Layout;
use rules::access::Access;
use rules::cause::Cause;
use rules::row::{Kind, Row};

impl Layout {
    /// Why these blocks of a unit may not be accessed: the first of them that is locked for this access, and the row that controls it.
    pub fn denial(&self, access: Access, unit: u32, first: u64, count: u64) -> Option<Cause>
        requires { first + count < 2 ^ 64 }
        ensures { result ≡ denied_at self.now.rows unit (first_locked self.now.rows access unit first count) }
    {
        // Up to the next edge one row controls all blocks, so the walk goes from edge to edge. Its length is set by the rows, not by the blocks.
        let end = first + count;
        let mut block = first;
        while block < end {
            let row = self.controlling_row(unit, block);
            if self.rows.get(row).flags.is_locked_for(access) {
                let row = row as u32;
                return Some(Cause::BlockLocked { block, row });
            }
            block = next_edge(self.rows.as_slice(), unit, block, end);
        }
        None
    }
}

/// The first edge after a block of the unit that one of these rows makes, or the limit where that comes first.
fn next_edge(rows: &[Row], unit: u32, block: u64, limit: u64) -> u64
    ensures { result ≡ next_edge rows.now unit block limit }
{
    rows.iter().fold(limit, |nearest, row| edge_after(row, unit, block, nearest))
}

/// The same for one row: a range row of the unit makes an edge where it starts, and one where it has ended.
fn edge_after(row: &Row, unit: u32, block: u64, limit: u64) -> u64
    ensures { result ≡ edge_after unit block limit row.now.kind }
{
    match row.kind {
        Kind::RangeRow {
            unit: u,
            start,
            length,
            ..
        } if u == unit => {
            // An end that is no u64 is not before the limit, and neither is the largest u64.
            let end = start.saturating_add(length);
            nearer(block, start, nearer(block, end, limit))
        }
        _ => limit,
    }
}

/// The edge, where it comes after the block and before the limit; else the limit.
fn nearer(block: u64, edge: u64, limit: u64) -> u64
    ensures { result ≡ nearer block edge limit }
{
    if block < edge && edge < limit {
        edge
    } else {
        limit
    }
}
