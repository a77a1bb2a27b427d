//! The words that say which call a line is.
ghost use Rattle.lines.specs.Spelling.{Reads, method_spelling, spelling};

use crate::fault::Fault;

/// The first word of a line, or the word after a caller.
#[derive(Clone, Copy)]
pub enum Keyword {
    Fresh,
    Load,
    Admins,
    User,
    Method(Method),
    Create,
    Delete,
    Format,
    Access,
    Controls,
    Unused,
    Describe,
    Save,
}

/// A call that is made by somebody, and so follows its caller.
#[derive(Clone, Copy)]
pub enum Method {
    Assign,
    Deassign,
    SetRange,
    SetLocks,
    GenKey,
    Erase,
    Reactivate,
    Reset,
    ReadRow,
}

/// The keyword that is spelled so.
impl<'a> TryFrom<&'a str> for Keyword {
    type Error = Fault<'a>;

    ghost try_from_gives = { Reads spelling };

    fn try_from(word: &'a str) -> Result<Keyword, Fault<'a>> {
        Ok(match word {
            "fresh" => Keyword::Fresh,
            "load" => Keyword::Load,
            "admins" => Keyword::Admins,
            "user" => Keyword::User,
            "create" => Keyword::Create,
            "delete" => Keyword::Delete,
            "format" => Keyword::Format,
            "access" => Keyword::Access,
            "controls" => Keyword::Controls,
            "unused" => Keyword::Unused,
            "describe" => Keyword::Describe,
            "save" => Keyword::Save,
            _ => return Method::try_from(word).map(Keyword::Method),
        })
    }
}

/// The method that is spelled so.
impl<'a> TryFrom<&'a str> for Method {
    type Error = Fault<'a>;

    ghost try_from_gives = { Reads method_spelling };

    fn try_from(word: &'a str) -> Result<Method, Fault<'a>> {
        Ok(match word {
            "assign" => Method::Assign,
            "deassign" => Method::Deassign,
            "set-range" => Method::SetRange,
            "set-locks" => Method::SetLocks,
            "gen-key" => Method::GenKey,
            "erase" => Method::Erase,
            "reactivate" => Method::Reactivate,
            "reset" => Method::Reset,
            "read-row" => Method::ReadRow,
            _ => return Err(Fault::UnknownWord(word)),
        })
    }
}
