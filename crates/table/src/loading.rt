ghost use Rattle.std.specs.Prelude.{◌≡◌, ◌||◌, IfOk, not, true, ◌==◌};
ghost use Rattle.std.specs.List.{count_by, list_all};
ghost use Rattle.std.specs.Result.{result_err};
ghost use Rattle.vault.specs.Serials.{distinct, holds};
ghost use Rattle.sheet.specs.Format.{Fits};
ghost use Rattle.sheet.specs.Layouts.{Describes};
ghost use Rattle.sheet.specs.Loading.{holds_just, load, load_check, load_refusal};
ghost use Rattle.sheet.specs.Promises.{LoadsWhatWasSaved, SavesWhatWasLoaded, TakesSavedSheets};

use crate::calls::Calls;
use crate::state::{Table, check_capacity};
use content::Content;
use layout::content::Layout;
use rules::cause::Cause;
use rules::numbering::{Bounds, Numbering};
use std::marker::PhantomData;
use vault::Vault;

/// Says whether a table can be laid out from this sheet over this vault.
pub fn load_check<V: Vault, N: Numbering>(vault: &V, sheet: &[u8]) -> Result<(), Cause>
    ensures answer { result ≡ load_check N.BOUNDS (V.meaning vault.now) sheet.now }
    ensures takes_saved_sheets { TakesSavedSheets N.BOUNDS (V.meaning vault.now) sheet.now result }
{
    check::<V, N>(vault, sheet)
}

impl<'v, V: Vault, N: Numbering> Table<'v, V, N> {
    /// Lays a table out as the sheet describes it; a closed one where `load_check` refuses.
    pub fn load(vault: &'v mut V, sheet: &[u8]) -> Table<'v, V, N>
        ensures model { ⟦<Table<'v, V, N> as Calls>⟧.model result ≡ load N.BOUNDS (V.meaning vault.old) sheet.now }
        ensures same { result.vault.now ≡ vault.old }
        ensures lent { result.vault.ghost_name ≡ vault.entry.ghost_name }
        ensures loads_what_was_saved { LoadsWhatWasSaved N.BOUNDS (V.meaning vault.old) sheet.now (⟦<Table<'v, V, N> as Calls>⟧.model result) }
        ensures saves_what_was_loaded { SavesWhatWasLoaded N.BOUNDS (V.meaning vault.old) sheet.now (⟦<Table<'v, V, N> as Calls>⟧.model result) }
    {
        Table::described(vault, sheet)
    }

    // What `load` does; its promises follow from this contract.
    fn described(vault: &'v mut V, sheet: &[u8]) -> Table<'v, V, N>
        ensures model { ⟦<Table<'v, V, N> as Calls>⟧.model result ≡ load N.BOUNDS (V.meaning vault.old) sheet.now }
        ensures same { result.vault.now ≡ vault.old }
        ensures lent { result.vault.ghost_name ≡ vault.entry.ghost_name }
        ensures fits { Fits N.BOUNDS }
    {
        let (layout, closed) = match read::<V, N>(vault, sheet) {
            Ok(layout) => (layout, false),
            Err(_) => (Layout::blank(), true),
        };
        let content = Content {
            layout,
            closed,
            numbering: PhantomData,
        };
        Table { content, vault }
    }
}

// What `load_check` does; its promise follows from this contract.
fn check<V: Vault, N: Numbering>(vault: &V, sheet: &[u8]) -> Result<(), Cause>
    ensures answer { result ≡ load_check N.BOUNDS (V.meaning vault.now) sheet.now }
    ensures fits { Fits N.BOUNDS }
{
    read::<V, N>(vault, sheet)?;
    Ok(())
}

/// The layout that the sheet describes, where it can be laid out over this vault.
fn read<V: Vault, N: Numbering>(vault: &V, sheet: &[u8]) -> Result<Layout, Cause>
    ensures refused { result_err result ≡ load_refusal N.BOUNDS (V.meaning vault.now) sheet.now }
    ensures layout { IfOk result (λ l. Describes N.BOUNDS sheet.now l) }
    ensures fits { Fits N.BOUNDS }
{
    let bounds = bounds_of::<N>();
    check_capacity(vault)?;
    let layout = sheet::load(sheet, bounds)?;
    if !holds_just(vault, layout.serials().as_slice()) {
        return Err(Cause::OtherKeys);
    }
    Ok(layout)
}

/// The numbers of the numbering, whose types say that they fit on a sheet.
fn bounds_of<N: Numbering>() -> Bounds
    ensures bounds { result ≡ N.BOUNDS }
    ensures fits { Fits N.BOUNDS }
{
    N::BOUNDS
}

/// Whether the vault holds just these serials, none of which stands twice: it holds each of them and as many, so no other.
fn holds_just<V: Vault>(vault: &V, serials: &[u32]) -> bool
    requires { distinct serials.now ≡ true }
    ensures { result ≡ holds_just serials.now (V.meaning vault.now) }
{
    holds_each(vault, serials) && vault.count() as usize == count_of(serials)
}

fn holds_each<V: Vault>(vault: &V, serials: &[u32]) -> bool
    ensures { result ≡ list_all (λ s. s == 0 || holds s (V.meaning vault.now).held) serials.now }
{
    serials
        .iter()
        .all(|serial| *serial == 0 || vault.holds(*serial))
}

fn count_of(serials: &[u32]) -> usize
    ensures { result ≡ count_by (λ s. not (s == 0)) serials.now }
{
    serials.iter().filter(|serial| **serial != 0).count()
}
