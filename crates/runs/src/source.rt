ghost use Rattle.std.specs.Prelude.{◌≡◌};
ghost use Rattle.runs.specs.LayingOut.{laid_out, laying_check, BeginsOrIsClosed};

use rules::cause::Cause;
use rules::numbering::Numbering;
use table::calls::Calls;
use table::loading::load_check;
use table::state::{Table, fresh_check};
use vault::Vault;

/// What a table is laid out from.
#[derive(Clone, Copy)]
pub enum Source<'a> {
    /// Nothing: the table is blank.
    Blank,
    /// The bytes of a sheet.
    Sheet(&'a [u8]),
}

/// Says whether a table can be laid out from this over the vault.
pub fn check<V: Vault, N: Numbering>(vault: &V, source: Source<'_>) -> Result<(), Cause>
    ensures { result ≡ laying_check N.BOUNDS (V.meaning vault.now) source.entry }
{
    match source {
        Source::Blank => fresh_check(vault),
        Source::Sheet(sheet) => load_check::<V, N>(vault, sheet),
    }
}

/// Lays a table out; a closed one where `check` refuses.
pub fn lay_out<'v, V: Vault, N: Numbering>(vault: &'v mut V, source: Source<'_>) -> Table<'v, V, N>
    ensures model { ⟦<Table<'v, V, N> as Calls>⟧.model result ≡ laid_out N.BOUNDS (V.meaning vault.old) source.entry }
    ensures same { result.vault.now ≡ vault.old }
    ensures lent { result.vault.ghost_name ≡ vault.entry.ghost_name }
    ensures begins { BeginsOrIsClosed (laying_check N.BOUNDS (V.meaning vault.old) source.entry) (laid_out N.BOUNDS (V.meaning vault.old) source.entry) }
{
    match source {
        Source::Blank => Table::fresh(vault),
        Source::Sheet(sheet) => Table::load(vault, sheet),
    }
}
