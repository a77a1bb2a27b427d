//! Reads the call that lays the table out.
ghost use Rattle.std.specs.Prelude.{◌∷◌, IfOk, codes};
ghost use Rattle.lines.specs.Says.{Holds, LaysOut, NamesDrive};

use crate::calls::{Layout, Source};
use crate::fault::Fault;
use crate::keywords::Keyword;
use crate::kinds::{NumberingKind, VaultKind};
use crate::words::Words;
use std::alloc::Global;

/// The call that lays the table out, after its first word.
pub fn layout<'a>(heap: Global, first: &'a str, words: Words<'a>) -> Result<Layout<'a>, Fault<'a>>
    ensures { IfOk result (λ l. LaysOut l (first.now ∷ words.entry)) }
{
    match Keyword::try_from(first)? {
        Keyword::Fresh => fresh(words),
        Keyword::Load => load(heap, words),
        _ => Err(Fault::LayoutMissing),
    }
}

/// `fresh NUMBERING VAULT CAPACITY`
fn fresh<'a>(mut words: Words<'a>) -> Result<Layout<'a>, Fault<'a>>
    ensures { IfOk result (λ l. LaysOut l (codes "fresh" ∷ words.entry)) }
{
    let (numbering, vault, capacity) = drive(&mut words)?;
    words.end()?;
    Ok(Layout {
        numbering,
        vault,
        capacity,
        source: Source::Fresh,
    })
}

/// `load NUMBERING VAULT CAPACITY SHEET [holding S S ..]`
fn load<'a>(heap: Global, mut words: Words<'a>) -> Result<Layout<'a>, Fault<'a>>
    ensures { IfOk result (λ l. LaysOut l (codes "load" ∷ words.entry)) }
{
    let (numbering, vault, capacity) = drive(&mut words)?;
    let path = words.word("SHEET")?;
    let holding = holding(heap, words, capacity)?;
    Ok(Layout {
        numbering,
        vault,
        capacity,
        source: Source::Sheet { path, holding },
    })
}

/// `NUMBERING VAULT CAPACITY`, with which either layout begins.
fn drive<'a>(words: &mut Words<'a>) -> Result<(NumberingKind, VaultKind, u32), Fault<'a>>
    ensures { IfOk result (λ d. NamesDrive d.0 d.1 d.2 words.old words.new) }
{
    let numbering = NumberingKind::try_from(words.word("NUMBERING")?)?;
    let vault = VaultKind::try_from(words.word("VAULT")?)?;
    let capacity = words.number("CAPACITY")?;
    Ok((numbering, vault, capacity))
}

/// `[holding S S ..]`, which ends the line.
fn holding<'a>(
    heap: Global,
    mut words: Words<'a>,
    capacity: u32,
) -> Result<Option<Vec<u32>>, Fault<'a>>
    ensures { IfOk result (λ held. Holds capacity held words.entry) }
{
    let Some(word) = words.next() else {
        return Ok(None);
    };
    if word != "holding" {
        return Err(Fault::WordTooMany(word));
    }
    let serials = words.numbers(heap)?;
    if serials.len() > capacity as usize {
        return Err(Fault::TooManySerials(capacity));
    }
    Ok(Some(serials))
}
