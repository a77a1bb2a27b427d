//! What can be wrong with a line.
use std::alloc::AllocError;
use std::fmt;
use thiserror::Error;

/// What is wrong with a line. A word that is to blame is a part of the script's text.
#[derive(Clone, Copy, Error)]
pub enum Fault<'a> {
    #[error("`{0}` is no word that can stand here")]
    UnknownWord(&'a str),
    #[error("`{0}` needs its caller first, `admins` or `user N`")]
    NeedsCaller(&'a str),
    #[error("`{0}` takes no caller")]
    TakesNoCaller(&'a str),
    #[error("a number is expected, and `{0}` is none")]
    NotANumber(&'a str),
    #[error("the number `{0}` does not fit")]
    TooLarge(&'a str),
    #[error("`0` is no user")]
    NoUser,
    #[error("there are more serials than the capacity of {0}")]
    TooManySerials(u32),
    #[error("{0} is missing")]
    Missing(&'static str),
    #[error("`{0}` is a word too many")]
    WordTooMany(&'a str),
    #[error("the layout call is missing")]
    LayoutMissing,
    #[error("the layout call stands twice")]
    LayoutTwice,
    #[error("there is not enough memory")]
    NoMemory(#[from(alloc)] AllocError),
}

/// The message itself, which is far shorter to prove than the derived form.
impl fmt::Debug for Fault<'_> {
    fn fmt<W: fmt::Write>(&self, f: &mut fmt::Formatter<W>) -> fmt::Result {
        fmt::Display::fmt(self, f)
    }
}
