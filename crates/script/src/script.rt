//! What a script says as a whole.
use lines::{Layout, Order};

/// What a line wants, its number counted from 1, and its words with one space between.
#[derive(Drop)]
pub struct Line<'a> {
    pub number: usize,
    pub words: String,
    pub order: Order<'a>,
}

/// A whole script that was read. The line that lays the table out is counted from 1, as the others.
#[derive(Drop)]
pub struct Script<'a> {
    pub layout_number: usize,
    pub layout_words: String,
    pub layout: Layout<'a>,
    pub lines: Vec<Line<'a>>,
}
