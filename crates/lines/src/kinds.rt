//! The words that say which numbering and which vault a drive has.
ghost use Rattle.lines.specs.Spelling.{Reads, numbering_word, vault_word};

use crate::fault::Fault;

/// How the drive numbers its units.
#[derive(Clone, Copy)]
pub enum NumberingKind {
    Nvme,
    Scsi,
}

/// The numbering that is spelled so.
impl<'a> TryFrom<&'a str> for NumberingKind {
    type Error = Fault<'a>;

    ghost try_from_gives = { Reads numbering_word };

    fn try_from(word: &'a str) -> Result<NumberingKind, Fault<'a>> {
        match word {
            "nvme" => Ok(NumberingKind::Nvme),
            "scsi" => Ok(NumberingKind::Scsi),
            _ => Err(Fault::UnknownWord(word)),
        }
    }
}

/// Where the drive keeps its keys.
#[derive(Clone, Copy)]
pub enum VaultKind {
    Chip,
    File,
}

/// The vault that is spelled so.
impl<'a> TryFrom<&'a str> for VaultKind {
    type Error = Fault<'a>;

    ghost try_from_gives = { Reads vault_word };

    fn try_from(word: &'a str) -> Result<VaultKind, Fault<'a>> {
        match word {
            "chip" => Ok(VaultKind::Chip),
            "file" => Ok(VaultKind::File),
            _ => Err(Fault::UnknownWord(word)),
        }
    }
}
