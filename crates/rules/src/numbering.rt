ghost use Rattle.std.specs.Prelude.{◌≡◌, false};
ghost use Rattle.std.proofs.Common.{refl};
ghost use Rattle.rules.specs.Units.{nvme, scsi, valid};
ghost use Rattle.rules.specs.declared.numbering.Bounds.{Bounds};

/// What a numbering fixes: the mark of a row without a unit, the first and the last unit number, and its code on the sheet.
// The mark and the code are numbers because the sheet's format has them so.
#[derive(Clone, Copy)]
pub struct Bounds {
    pub mark: u32,
    pub first: u32,
    pub last: u32,
    pub code: u16,
}

impl Bounds {
    /// Whether units are given this number.
    pub fn is_valid(self, number: u32) -> bool
        ensures { result ≡ valid self number }
    {
        self.first <= number && number <= self.last
    }
}

/// How units are numbered. Code over numberings is proved once, from this law.
pub trait Numbering {
    const BOUNDS: Bounds;

    ghost BOUNDS: { Bounds };

    ghost apart: { valid BOUNDS BOUNDS.mark ≡ false };
}

/// NVMe namespaces count from 1; 0 marks a row without one.
#[derive(Clone, Copy)]
pub struct Nvme;

impl Numbering for Nvme {
    const BOUNDS: Bounds = Bounds {
        mark: 0,
        first: 1,
        last: 0xFFFF_FFFE,
        code: 1,
    };

    ghost BOUNDS = { nvme };

    ghost apart = { refl };
}

/// SCSI logical units count from 0; 0xFFFF_FFFF marks a row without one.
#[derive(Clone, Copy)]
pub struct Scsi;

impl Numbering for Scsi {
    const BOUNDS: Bounds = Bounds {
        mark: 0xFFFF_FFFF,
        first: 0,
        last: 0xFFFF_FFFE,
        code: 2,
    };

    ghost BOUNDS = { scsi };

    ghost apart = { refl };
}
