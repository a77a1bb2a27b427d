ghost use Rattle.std.specs.Prelude.{◌≡◌, ◌+◌, nat_lt};
ghost use Rattle.rules.specs.declared.unit.Holder.TheVariants.{TheUnit};

use packed::Keyed;

/// A unit: an NVMe namespace or a SCSI logical unit, with one media key of its own.
#[derive(Clone, Copy, Default)]
pub struct LogicalUnit {
    pub number: u32,
    pub blocks: u64,
    /// Names the unit's key.
    pub serial: u32,
}

impl LogicalUnit {
    /// Whether a range ends past the unit. Start and length may be any numbers, so their sum is not made.
    pub fn is_passed_by(self, start: u64, length: u64) -> bool
        ensures { result ≡ nat_lt self.blocks (start + length) }
    {
        start > self.blocks || length > self.blocks - start
    }
}

/// Units are known by their numbers.
impl Keyed for LogicalUnit {
    ghost key = { λ u. u.number };

    fn key_of(&self) -> u32 {
        self.number
    }
}

/// The row that controls a block, and the serial of the block's key.
#[derive(Clone, Copy, PartialEq, Eq)]
pub struct Control {
    pub row: u32,
    pub serial: u32,
}

/// What has a key of its own: a unit, or a range row.
#[derive(Clone, Copy)]
pub enum Holder {
    TheUnit { number: u32 },
    TheRow { row: u32 },
}

/// What stands in the unused places of a list of holders.
impl Default for Holder {
    ghost is_default = { λ holder. holder ≡ TheUnit 0 };

    fn default() -> Self {
        Holder::TheUnit { number: 0 }
    }
}
