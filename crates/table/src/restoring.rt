ghost use Rattle.std.specs.Prelude.{◌≡◌, IfOk, take};
ghost use Rattle.std.specs.Result.{result_err};
ghost use Rattle.rules.specs.Sound.{Sound};
ghost use Rattle.sheet.specs.Loading.{load};
ghost use Rattle.sheet.specs.Saving.{save_refusal, saved, total_of};

use crate::calls::Calls;
use crate::state::Table;
use rules::cause::Cause;
use rules::numbering::Numbering;
use vault::Vault;

/// Saves a table and lays another out from what was saved. Over a vault that holds its keys it is the same table.
pub fn restore<'v, C: Calls, V: Vault, N: Numbering>(
    table: &C,
    vault: &'v mut V,
    buffer: &mut [u8],
) -> Result<Table<'v, V, N>, Cause>
    ensures refused { result_err result ≡ save_refusal (C.model table.now) buffer.old }
    ensures buffer { buffer.new ≡ saved (C.model table.now) buffer.old }
    ensures model { IfOk result (λ t. ⟦<Table<'v, V, N> as Calls>⟧.model t ≡ load N.BOUNDS (V.meaning vault.old) (take (total_of (C.model table.now)) buffer.new)) }
    ensures same { IfOk result (λ t. t.vault.now ≡ vault.old) }
    ensures lent { IfOk result (λ t. t.vault.ghost_name ≡ vault.entry.ghost_name) }
    ensures same_table { Sound (C.model table.now) → (C.model table.now).numbering ≡ N.BOUNDS → (C.model table.now).vault ≡ V.meaning vault.old
        → IfOk result (λ t. ⟦<Table<'v, V, N> as Calls>⟧.model t ≡ C.model table.now) }
{
    let total = table.save(buffer)?;
    Ok(Table::load(vault, &buffer[..total as usize]))
}
