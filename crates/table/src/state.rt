ghost use Rattle.std.specs.Prelude.{◌≡◌, not, [], ◌∷◌};
ghost use Rattle.vault.specs.Checks.{answer, first_of};
ghost use Rattle.vault.specs.Kinds.{can_be_capacity};
ghost use Rattle.rules.specs.declared.cause.Cause.TheVariants.{Closed};
ghost use Rattle.rules.specs.LayingOut.{fresh_check, fresh};

use crate::calls::Calls;
use content::Content;
use layout::content::Layout;
use rules::cause::Cause;
use rules::numbering::Numbering;
use std::marker::PhantomData;
use vault::Vault;

/// A drive's table over the vault that it is lent.
#[derive(Drop)]
pub struct Table<'v, V: Vault, N: Numbering> {
    pub(crate) content: Content<N>,
    pub(crate) vault: &'v mut V,
}

/// Says whether a table can be laid out blank over this vault.
pub fn fresh_check<V: Vault>(vault: &V) -> Result<(), Cause>
    ensures { result ≡ fresh_check (V.meaning vault.now) }
{
    check_capacity(vault)?;
    if vault.count() > 0 {
        return Err(Cause::Closed);
    }
    Ok(())
}

// A table is told its vault's capacity, so this check compares it with 1 and 64 as the vaults' own checks do theirs.
pub(crate) fn check_capacity<V: Vault>(vault: &V) -> Result<(), Cause>
    ensures { result ≡ answer (first_of ((not (can_be_capacity (V.meaning vault.now).capacity), Closed) ∷ [])) tt }
{
    let capacity = vault.capacity();
    if capacity < 1 || capacity > 64 {
        return Err(Cause::Closed);
    }
    Ok(())
}

impl<'v, V: Vault, N: Numbering> Table<'v, V, N> {
    /// Lays a table out blank; a closed one where `fresh_check` refuses.
    pub fn fresh(vault: &'v mut V) -> Table<'v, V, N>
        ensures model { ⟦<Table<'v, V, N> as Calls>⟧.model result ≡ fresh N.BOUNDS (V.meaning vault.old) }
        ensures same { result.vault.now ≡ vault.old }
        ensures lent { result.vault.ghost_name ≡ vault.entry.ghost_name }
    {
        let closed = fresh_check(vault).is_err();
        let content = Content {
            layout: Layout::blank(),
            closed,
            numbering: PhantomData,
        };
        Table { content, vault }
    }
}
