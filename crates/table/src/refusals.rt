ghost use Rattle.std.specs.Prelude.{◌≡◌};
ghost use Rattle.vault.specs.Checks.{answer, first_of};
ghost use Rattle.rules.specs.Commands.{create_answer};
ghost use Rattle.rules.specs.Drive.{unused_keys};
ghost use Rattle.sheet.specs.Saving.{room_checks};

use crate::calls::Calls;
use crate::state::Table;
use rules::cause::Cause;
use rules::numbering::Numbering;
use vault::Vault;

// The checks of a command in their order.
impl<'v, V: Vault, N: Numbering> Table<'v, V, N> {
    /// How many keys the vault has room for.
    pub(crate) fn unused_keys(&self) -> u32
        ensures { result ≡ unused_keys (⟦<Table<'v, V, N> as Calls>⟧.model self.now) }
    {
        self.vault.capacity().saturating_sub(self.vault.count())
    }
}

/// Whether a buffer has room for so many bytes.
pub(crate) fn check_room(out: &[u8], needed: u32) -> Result<(), Cause>
    ensures { result ≡ answer (first_of (room_checks needed out.now)) tt }
{
    if out.len() < needed as usize {
        return Err(Cause::BufferShort { needed });
    }
    Ok(())
}
