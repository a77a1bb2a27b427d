ghost use Rattle.std.specs.Prelude.{◌≡◌, ◌<◌, ◌&&◌, if◌then◌else◌, ◌∷◌, length, map, replicate, IfSome};
ghost use Rattle.std.specs.List.{list_any};
ghost use Rattle.rules.specs.Methods.{other_rows, reactivated_row, selected};
ghost use Rattle.rules.specs.declared.row.Sought.TheVariants.{RangeRowOf};
ghost use Rattle.rules.specs.declared.row.Standing.TheVariants.{Shared, SingleUser};
ghost use Rattle.rules.specs.Rows.{all_rows, anew, free_row, global_row, is_there, lock_enabled, locked, lowest_row, numbered, relocked, row, suits, with_flags, with_kind, with_range, with_row};

use rules::row::{Flags, Kind, Row, Sought, Standing};
use std::marker::Model;

/// The seventeen rows of the Locking table. Row 0 is the Global Range row.
#[derive(Drop)]
pub struct Rows {
    // The drive has just so many.
    list: [Row; 17],
}

impl Model for Rows {
    ghost use Rattle.std.specs.Prelude.{◌≡◌, List, length};
    ghost use Rattle.rules.specs.declared.row.Row.{Row};

    ghost Value = { List Row };

    ghost view = { λ r. r.list };

    ghost invariant = { λ r. length r.list ≡ 17 };
}

impl Rows {
    /// The Global Range row, and sixteen free ones.
    pub fn free() -> Rows
        ensures { result ≡ global_row ∷ replicate 16 free_row }
    {
        let free = Row {
            kind: Kind::Free,
            standing: Standing::Shared,
            flags: Flags::BLANK,
        };
        let mut list = [free; 17];
        list[0] = Row {
            kind: Kind::Global,
            ..free
        };
        Rows { list }
    }

    /// The rows with this one's own range out of account.
    pub fn without(&self, at: usize) -> Rows
        requires { at < 17 }
        ensures { result ≡ other_rows self.now at }
    {
        let mut list = self.list;
        list[at] = Row {
            kind: Kind::Free,
            flags: Flags::BLANK,
            ..list[at]
        };
        Rows { list }
    }

    /// The rows, from row 0.
    pub fn as_slice(&self) -> &[Row]
        ensures rows { result.now ≡ self.now }
        ensures seventeen { length self.now ≡ 17 }
    {
        &self.list
    }

    /// The row with this number.
    pub fn get(&self, at: usize) -> Row
        requires { at < 17 }
        ensures { result ≡ row at self.now }
    {
        self.list[at]
    }

    /// Puts a row in the place of another.
    pub fn put(&mut self, at: usize, row: Row)
        requires { at < 17 }
        ensures { self.new ≡ with_row at row self.old }
    {
        self.list[at] = row;
    }

    /// The number of the lowest row that is looked for.
    pub fn find(&self, sought: Sought) -> Option<usize>
        ensures lowest { result ≡ lowest_row sought self.now }
        ensures within { IfSome result (λ i. i < 17) }
    {
        self.list.iter().position(|row| sought.suits(row))
    }

    /// Whether some row is what is looked for.
    pub fn has(&self, sought: Sought) -> bool
        ensures { result ≡ is_there sought self.now }
    {
        self.find(sought).is_some()
    }

    /// Whether a lock is enabled on some row.
    pub fn is_lock_enabled(&self) -> bool
        ensures { result ≡ list_any (λ r. lock_enabled r.flags) self.now }
    {
        self.list.iter().any(|row| row.flags.is_lock_enabled())
    }

    /// Whether a range row of the unit is locked.
    pub fn is_range_locked(&self, unit: u32) -> bool
        ensures { result ≡ list_any (λ r. locked (row r self.now).flags) (all_rows (RangeRowOf unit) self.now) }
    {
        is_any_locked(&self.list, Sought::RangeRowOf { unit })
    }

    /// A row is taken for something else, or given up.
    pub fn turn_into(&mut self, at: usize, kind: Kind)
        requires { at < 17 }
        ensures { self.new ≡ with_row at (anew kind (row at self.old)) self.old }
    {
        self.list[at].turn_into(kind);
    }

    /// Puts a range row over other blocks.
    pub fn set_range(&mut self, at: usize, start: u64, length: u64)
        requires { at < 17 }
        ensures { self.new ≡ with_row at (with_kind (with_range start length (row at self.old).kind) (row at self.old)) self.old }
    {
        self.list[at].set_range(start, length);
    }

    pub fn set_flags(&mut self, at: usize, flags: Flags)
        requires { at < 17 }
        ensures { self.new ≡ with_row at (with_flags flags (row at self.old)) self.old }
    {
        self.list[at].set_flags(flags);
    }

    /// The drive was reset.
    pub fn reset(&mut self)
        ensures { self.new ≡ map (λ r. with_flags (relocked r.flags) r) self.old }
    {
        for row in self.list.iter_mut() {
            row.reset();
        }
    }

    /// Puts the rows in Single User Mode that are selected, and no others: bit i stands for row i.
    pub fn reactivate(&mut self, selection: u32)
        ensures { self.new ≡ map (λ entry. reactivated_row selection entry.0 entry.1) (numbered self.old) }
    {
        for (i, row) in self.list.iter_mut().enumerate() {
            row.reactivate(standing_of(selection, i));
        }
    }
}

fn is_any_locked(rows: &[Row], sought: Sought) -> bool
    ensures { result ≡ list_any (λ r. suits sought r && locked r.flags) rows.now }
{
    rows.iter()
        .any(|row| sought.suits(row) && row.flags.is_locked())
}

/// The standing that a selection gives a row.
pub fn standing_of(selection: u32, row: usize) -> Standing
    requires { row < 32 }
    ensures { result ≡ (if selected selection row then SingleUser else Shared) }
{
    if is_selected(selection, row) {
        Standing::SingleUser
    } else {
        Standing::Shared
    }
}

/// Whether the bit with this number is set.
pub fn is_selected(selection: u32, bit: usize) -> bool
    requires { bit < 32 }
    ensures { result ≡ selected selection bit }
{
    (selection >> bit) % 2 == 1
}
