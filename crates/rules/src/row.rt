ghost use Rattle.std.specs.Prelude.{◌≡◌, ◌==◌};
ghost use Rattle.rules.specs.Questions.{fields_of};
ghost use Rattle.rules.specs.Rows.{anew, blank, is_single_user, key_or, lock_enabled, locked, locked_for, relocked, suits, shares, with_flags, with_kind, with_range};
ghost use Rattle.rules.specs.Sessions.{mover, owner};

use crate::access::Access;
use crate::call::ADMINS;
use crate::numbering::Bounds;

/// The five lock flags of a row.
#[derive(Clone, Copy, PartialEq, Eq)]
pub struct Flags {
    pub read_lock_enabled: bool,
    pub write_lock_enabled: bool,
    pub read_locked: bool,
    pub write_locked: bool,
    pub lock_on_reset: bool,
}

impl Flags {
    /// Lock on reset is set, and nothing else.
    pub const BLANK: Flags = Flags {
        read_lock_enabled: false,
        write_lock_enabled: false,
        read_locked: false,
        write_locked: false,
        lock_on_reset: true,
    };

    /// Whether a row with these flags is locked for this access: that lock is enabled, and set.
    pub fn is_locked_for(self, access: Access) -> bool
        ensures { result ≡ locked_for access self }
    {
        match access {
            Access::Read => self.read_lock_enabled && self.read_locked,
            Access::Write => self.write_lock_enabled && self.write_locked,
        }
    }

    /// Whether a row with these flags is locked for reading or for writing.
    pub fn is_locked(self) -> bool
        ensures { result ≡ locked self }
    {
        self.is_locked_for(Access::Read) || self.is_locked_for(Access::Write)
    }

    /// Whether one of the two locks is enabled, set or not.
    pub fn is_lock_enabled(self) -> bool
        ensures { result ≡ lock_enabled self }
    {
        self.read_lock_enabled || self.write_lock_enabled
    }

    /// What a reset makes of the flags: where lock on reset is true, each lock that is enabled is set.
    pub fn relocked(self) -> Flags
        ensures { result ≡ relocked self }
    {
        Flags {
            read_locked: self.read_locked || self.lock_on_reset && self.read_lock_enabled,
            write_locked: self.write_locked || self.lock_on_reset && self.write_lock_enabled,
            ..self
        }
    }
}

/// What a row is for.
#[derive(Clone, Copy)]
pub enum Kind {
    Free,
    /// Row 0: every block that no other row controls.
    Global,
    /// The blocks of one unit that none of its range rows covers.
    UnitRow {
        unit: u32,
    },
    /// Some blocks of one unit, under a key of their own; also at length 0.
    // Start and length are two numbers here as in the calls, on the sheet and in the definitions, which add and compare them.
    RangeRow {
        unit: u32,
        start: u64,
        length: u64,
        serial: u32,
    },
}

/// Whether a row is in Single User Mode.
#[derive(Clone, Copy, PartialEq, Eq)]
pub enum Standing {
    Shared,
    SingleUser,
}

impl Standing {
    pub fn is_single_user(self) -> bool
        ensures { result ≡ is_single_user self }
    {
        matches!(self, Standing::SingleUser)
    }
}

/// A row of the Locking table.
#[derive(Clone, Copy)]
pub struct Row {
    pub kind: Kind,
    pub standing: Standing,
    pub flags: Flags,
}

/// A row as the sheet has it, field by field: the unit or the mark, the serial or 0, and so on; and its standing.
#[derive(Clone, Copy, PartialEq, Eq)]
pub struct RowFields {
    pub unit: u32,
    pub serial: u32,
    pub start: u64,
    pub length: u64,
    pub flags: Flags,
    pub is_unit_row: bool,
    pub standing: Standing,
}

impl Row {
    /// The row as the sheet has it.
    pub fn fields(self, bounds: Bounds) -> RowFields
        ensures { result ≡ fields_of bounds self }
    {
        let bare = RowFields {
            unit: bounds.mark,
            serial: 0,
            start: 0,
            length: 0,
            flags: self.flags,
            is_unit_row: false,
            standing: self.standing,
        };
        match self.kind {
            Kind::Free | Kind::Global => bare,
            Kind::UnitRow { unit } => RowFields {
                unit,
                is_unit_row: true,
                ..bare
            },
            Kind::RangeRow {
                unit,
                start,
                length,
                serial,
            } => RowFields {
                unit,
                serial,
                start,
                length,
                ..bare
            },
        }
    }

    /// The row is taken for something else, or given up: its standing stays, and its flags are blank.
    pub fn turn_into(&mut self, kind: Kind)
        ensures { self.new ≡ anew kind self.old }
    {
        self.kind = kind;
        self.flags = Flags::BLANK;
    }

    /// Puts a range row over other blocks.
    pub fn set_range(&mut self, start: u64, length: u64)
        ensures { self.new ≡ with_kind (with_range start length self.old.kind) self.old }
    {
        if let Kind::RangeRow { unit, serial, .. } = self.kind {
            self.kind = Kind::RangeRow {
                unit,
                start,
                length,
                serial,
            };
        }
    }

    pub fn set_flags(&mut self, flags: Flags)
        ensures { self.new ≡ with_flags flags self.old }
    {
        self.flags = flags;
    }

    /// The drive was reset.
    pub fn reset(&mut self)
        ensures { self.new ≡ with_flags (relocked self.old.flags) self.old }
    {
        self.flags = self.flags.relocked();
    }

    /// Puts the row in Single User Mode, or takes it out; its flags are blank.
    pub fn reactivate(&mut self, standing: Standing)
        ensures { self.new ≡ record { kind = self.old.kind; standing = standing; flags = blank } }
    {
        self.standing = standing;
        self.flags = Flags::BLANK;
    }

    /// Whether this caller may move the row's range, where the row has this number: its owner under policy 0, Admins under policy 1.
    pub fn is_moved_by(self, caller: u32, number: u32, policy: u16) -> bool
        ensures { result ≡ (caller == mover policy number self) }
    {
        match (caller, self.standing, policy) {
            (user, Standing::SingleUser, 0) if user > ADMINS => user - 1 == number,
            (ADMINS, Standing::Shared, 0) | (ADMINS, _, 1..) => true,
            _ => false,
        }
    }

    /// Whether this caller owns the row, which has this number.
    pub fn is_owned_by(self, caller: u32, number: u32) -> bool
        ensures { result ≡ (caller == owner number self) }
    {
        // Under policy 0 it is the owner who moves a range.
        self.is_moved_by(caller, number, 0)
    }

    /// The serial of the row's own key, or 0 where it has none.
    pub fn key(&self) -> u32
        ensures { result ≡ key_or self.now.kind 0 }
    {
        match self.kind {
            Kind::RangeRow { serial, .. } => serial,
            _ => 0,
        }
    }
}

/// What a search over the rows looks for.
#[derive(Clone, Copy)]
pub enum Sought {
    FreeRow { standing: Standing },
    UnitRowOf { unit: u32 },
    RangeOver { unit: u32, block: u64 },
    RangeRowOf { unit: u32 },
    /// A range row of the unit that shares a block with this range.
    RangeSharing { unit: u32, start: u64, length: u64 },
}

/// Whether two ranges have a block in common: where the later one starts, neither has ended.
fn shares_block(start: u64, length: u64, other: u64, other_length: u64) -> bool
    ensures { result ≡ shares start length other other_length }
{
    if start <= other {
        other - start < length && 0 < other_length
    } else {
        start - other < other_length && 0 < length
    }
}

impl Sought {
    /// Whether the row is what is looked for.
    pub fn suits(self, row: &Row) -> bool
        ensures { result ≡ suits self row.now }
    {
        match (self, row.kind) {
            (Sought::FreeRow { standing }, Kind::Free) => row.standing == standing,
            (Sought::UnitRowOf { unit }, Kind::UnitRow { unit: u }) => u == unit,
            (Sought::RangeRowOf { unit }, Kind::RangeRow { unit: u, .. }) => u == unit,
            (
                Sought::RangeOver { unit, block },
                Kind::RangeRow {
                    unit: u,
                    start,
                    length,
                    ..
                },
            ) => u == unit && start <= block && block - start < length,
            (
                Sought::RangeSharing {
                    unit,
                    start,
                    length,
                },
                Kind::RangeRow {
                    unit: u,
                    start: own_start,
                    length: own_length,
                    ..
                },
            ) => u == unit && shares_block(own_start, own_length, start, length),
            _ => false,
        }
    }
}
