ghost use Rattle.std.specs.Prelude.{◌≡◌};
ghost use Rattle.rules.specs.Causes.{number, status};

/// Why a call is refused.
#[derive(Clone, Copy, PartialEq, Eq)]
pub enum Cause {
    CallerNotAllowed,
    /// The row's number is above 16.
    NoSuchRow,
    RowFree,
    /// The call is not for a row of this kind.
    WrongKind,
    /// The unit's number is not valid, or there is no such unit.
    NoSuchUnit,
    UnitExists,
    /// The size is outside 1 to 2^48 blocks.
    BadSize,
    /// The range ends past the unit.
    PastUnit,
    /// The range shares a block with a range row of the unit.
    SharesBlock,
    /// The first Assign of a unit gives it a unit row: start and length are 0.
    FirstNotWhole,
    /// No free row has the standing that is wanted.
    NoFreeRow,
    NoUnusedKey,
    SerialsRunOut,
    Locked,
    /// A row in Single User Mode is in the way.
    SingleUserInTheWay,
    /// A range row's key can't be kept.
    KeepOnRange,
    RangeRowsRemain,
    HasUnitRow,
    SixteenUnits,
    /// A caller above 17, a selection bit above 16, or a policy above 1.
    OutOfBounds,
    /// A lock is enabled on some row.
    LockEnabled,
    /// No block is asked for, or one past the unit.
    BlockOutOfRange,
    /// A block is locked for this access: the first such block, and its row.
    BlockLocked { block: u64, row: u32 },
    /// The buffer is shorter than this.
    BufferShort { needed: u32 },
    SheetHeader,
    SheetField,
    SheetRelation,
    /// The vault's keys are not the sheet's.
    OtherKeys,
    /// The table is closed, or a table over this vault would be.
    Closed,
}

/// How a call came in. A question comes over the host interface, as a command does.
#[derive(Clone, Copy)]
pub enum Asked {
    Method,
    Command,
}

/// The status that the host is told.
#[derive(Clone, Copy)]
pub enum Status {
    NotAuthorized,
    InvalidParameter,
    InsufficientRows,
    Fail,
    OperationDenied,
    InvalidNamespaceOrFormat,
    LbaOutOfRange,
    AccessDenied,
}

impl Cause {
    /// The number of the cause.
    // Number and status are two things that a cause has, and no other way to write it: a cause may carry a block and a row.
    pub fn number(self) -> u32
        ensures { result ≡ number self }
    {
        match self {
            Cause::CallerNotAllowed => 1,
            Cause::NoSuchRow => 2,
            Cause::RowFree => 3,
            Cause::WrongKind => 4,
            Cause::NoSuchUnit => 5,
            Cause::UnitExists => 6,
            Cause::BadSize => 7,
            Cause::PastUnit => 8,
            Cause::SharesBlock => 9,
            Cause::FirstNotWhole => 10,
            Cause::NoFreeRow => 11,
            Cause::NoUnusedKey => 12,
            Cause::SerialsRunOut => 13,
            Cause::Locked => 14,
            Cause::SingleUserInTheWay => 15,
            Cause::KeepOnRange => 16,
            Cause::RangeRowsRemain => 17,
            Cause::HasUnitRow => 18,
            Cause::SixteenUnits => 19,
            Cause::OutOfBounds => 20,
            Cause::LockEnabled => 21,
            Cause::BlockOutOfRange => 22,
            Cause::BlockLocked { .. } => 23,
            Cause::BufferShort { .. } => 24,
            Cause::SheetHeader => 25,
            Cause::SheetField => 26,
            Cause::SheetRelation => 27,
            Cause::OtherKeys => 28,
            Cause::Closed => 29,
        }
    }

    /// The status of the cause, which may differ by how the call came in; a cause without one is told by its number alone.
    pub fn status(self, asked: Asked) -> Option<Status>
        ensures { result ≡ status asked self }
    {
        match (self, asked) {
            (Cause::CallerNotAllowed, _) => Some(Status::NotAuthorized),
            (Cause::NoSuchUnit, Asked::Command) => Some(Status::InvalidNamespaceOrFormat),
            (Cause::NoUnusedKey | Cause::SerialsRunOut | Cause::Locked, Asked::Method) => Some(
                Status::Fail,
            ),
            (Cause::NoUnusedKey | Cause::SerialsRunOut | Cause::Locked, Asked::Command) => Some(
                Status::OperationDenied,
            ),
            (Cause::UnitExists | Cause::BadSize | Cause::HasUnitRow | Cause::SixteenUnits, _) =>
                Some(Status::OperationDenied),
            (Cause::NoFreeRow, _) => Some(Status::InsufficientRows),
            (Cause::LockEnabled, _) => Some(Status::Fail),
            (Cause::BlockOutOfRange, _) => Some(Status::LbaOutOfRange),
            (Cause::BlockLocked { .. }, _) => Some(Status::AccessDenied),
            (Cause::BufferShort { .. }, _) => None,
            (
                Cause::SheetHeader
                | Cause::SheetField
                | Cause::SheetRelation
                | Cause::OtherKeys
                | Cause::Closed,
                _,
            ) => None,
            _ => Some(Status::InvalidParameter),
        }
    }
}
