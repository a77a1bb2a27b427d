//! What a rehearsal begins with: the sheet, and the keys that the vault holds.
use crate::files::read_sheet;
use rules::numbering::Bounds;
use runs::source;
use script::{Script, Source};
use std::alloc::{AllocError, Global};
use vault::Vault;
use vault::file::KeyFile;

#[derive(Drop)]
pub struct Beginning {
    /// None where the table is laid out blank.
    pub sheet: Option<Vec<u8>>,
    /// What is put into the vault, in this order.
    pub serials: Vec<u32>,
}

impl Beginning {
    /// Reads the sheet, where there is one.
    pub fn of(rt: &HostRuntime, script: &Script, bounds: Bounds) -> anyhow::Result<Beginning> {
        match &script.layout.source {
            Source::Fresh => Ok(Beginning {
                sheet: None,
                serials: Vec::new(rt.alloc()),
            }),
            Source::Sheet { path, holding } => {
                let sheet = read_sheet(rt, script.layout_number, path)?;
                let serials = match holding {
                    Some(serials) => serials.clone()?,
                    None => own_serials(rt.alloc(), sheet.as_slice(), bounds)?,
                };
                Ok(Beginning {
                    sheet: Some(sheet),
                    serials,
                })
            }
        }
    }

    /// What the table is laid out from.
    pub fn source(&self) -> source::Source<'_> {
        match &self.sheet {
            None => source::Source::Blank,
            Some(sheet) => source::Source::Sheet(sheet.as_slice()),
        }
    }
}

/// The serials of a sheet's keys, the units' and then the range rows'; none where the sheet is faulty.
fn own_serials(heap: Global, sheet: &[u8], bounds: Bounds) -> Result<Vec<u32>, AllocError> {
    let Ok(layout) = sheet::load(sheet, bounds) else {
        return Ok(Vec::new(heap));
    };
    let serials = layout.serials();
    serials
        .iter()
        .copied()
        .filter(|serial| *serial != 0)
        .collect(heap)
}

/// A key file into which each serial is put in turn.
pub fn file_with(capacity: u32, serials: &[u32]) -> KeyFile {
    let mut file = KeyFile::new(capacity);
    for serial in serials {
        // What the file refuses it does not hold: the load is then refused.
        let _ = file.put(*serial);
    }
    file
}

/// Writes the serials into the first registers, as far as there are any.
pub fn write_registers(registers: &mut [u32], serials: &[u32]) {
    for (register, serial) in registers.iter_mut().zip(serials) {
        *register = *serial;
    }
}
