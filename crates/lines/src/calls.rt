//! What a line says: the layout of the table, or a call on it.
use crate::kinds::{NumberingKind, VaultKind};
use rules::ask::Ask;

/// What a table begins with. A path is a word of the script's text.
#[derive(Drop)]
pub enum Source<'a> {
    /// Nothing, over an empty vault.
    Fresh,
    /// A saved sheet, over a vault that holds the serials listed, or the sheet's own where no list is given.
    Sheet {
        path: &'a str,
        holding: Option<Vec<u32>>,
    },
}

/// The table that the first call lays out.
#[derive(Drop)]
pub struct Layout<'a> {
    pub numbering: NumberingKind,
    pub vault: VaultKind,
    pub capacity: u32,
    pub source: Source<'a>,
}

/// What a line wants of the table that is laid out.
#[derive(Clone, Copy)]
pub enum Order<'a> {
    /// Asked of the table, and answered with a value.
    Ask(Ask),
    /// Answered with bytes.
    Describe,
    /// Answered with bytes too, which go into the file.
    Save { path: &'a str },
}
