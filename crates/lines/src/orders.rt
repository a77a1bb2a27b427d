//! Reads what a line wants of the table that is laid out, by its first word.
ghost use Rattle.std.specs.Prelude.{ℕ, suc, List, ◌∷◌, IfErr, IfOk, codes};
ghost use Rattle.lines.specs.Says.{NamesCaller, Says};

use crate::calls::Order;
use crate::commands;
use crate::fault::Fault;
use crate::keywords::Keyword;
use crate::methods::method;
use crate::words::Words;
use rules::call::ADMINS;

/// What a line wants of the table, after its first word.
pub fn order<'a>(first: &'a str, mut words: Words<'a>) -> Result<Order<'a>, Fault<'a>>
    ensures { IfOk result (λ order. Says order (first.now ∷ words.entry)) }
{
    match Keyword::try_from(first)? {
        Keyword::Fresh | Keyword::Load => Err(Fault::LayoutTwice),
        Keyword::Admins => method(ADMINS, words),
        Keyword::User => {
            let caller = user(&mut words)?;
            method(caller, words)
        }
        Keyword::Method(_) => Err(Fault::NeedsCaller(first)),
        Keyword::Create => commands::create(words),
        Keyword::Delete => commands::delete(words),
        Keyword::Format => commands::format(words),
        Keyword::Access => commands::access(words),
        Keyword::Controls => commands::controls(words),
        Keyword::Unused => commands::unused(words),
        Keyword::Describe => commands::describe(words),
        Keyword::Save => commands::save(words),
    }
}

/// `user N`, after its first word. No user has the number that stands for Admins.
fn user<'a>(words: &mut Words<'a>) -> Result<u32, Fault<'a>>
    ensures said { IfOk result (λ caller. NamesCaller caller (codes "user" ∷ words.old) words.new) }
    ensures refused { IfErr result (λ _. (caller : ℕ) (left : List (List ℕ)) → NamesCaller (suc caller) (codes "user" ∷ words.old) left → ⊥) }
{
    let caller = words.number("N")?;
    if caller == ADMINS {
        return Err(Fault::NoUser);
    }
    Ok(caller)
}
