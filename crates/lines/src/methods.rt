//! Reads the methods, each after its caller and its own word and to the end of its line.
ghost use Rattle.std.specs.Prelude.{◌≡◌, ◌≢◌, ℕ, Bool, ◌∷◌, IfErr, IfOk, codes};
ghost use Rattle.rules.specs.declared.ask.Question.TheVariants as question;
ghost use Rattle.rules.specs.declared.call.Call.TheVariants.{Assign, Deassign, SetRange, GenKey, Erase};
ghost use Rattle.rules.specs.declared.row.Standing.{Standing};
ghost use Rattle.lines.specs.Says.{NameFlags, NameRows, SaysBy, SaysCall, SaysQuestion};
ghost use Rattle.lines.specs.Spelling.{standing_words};

use crate::calls::Order;
use crate::fault::Fault;
use crate::keywords::{Keyword, Method};
use crate::words::{Words, number_of};
use rules::ask::{Ask, Question};
use rules::call::Call;
use rules::row::{Flags, Standing};

/// A method, after its caller.
pub fn method<'a>(caller: u32, mut words: Words<'a>) -> Result<Order<'a>, Fault<'a>>
    ensures { IfOk result (λ order. SaysBy (Some caller) order words.entry) }
{
    let word = words.word("the method")?;
    let Keyword::Method(method) = Keyword::try_from(word)? else {
        return Err(Fault::TakesNoCaller(word));
    };
    match method {
        Method::Assign => assign(caller, words),
        Method::Deassign => deassign(caller, words),
        Method::SetRange => set_range(caller, words),
        Method::SetLocks => set_locks(caller, words),
        Method::GenKey => gen_key(caller, words),
        Method::Erase => erase(caller, words),
        Method::Reactivate => reactivate(caller, words),
        Method::Reset => reset(caller, words),
        Method::ReadRow => read_row(caller, words),
    }
}

/// `assign UNIT START LENGTH [single]`
fn assign<'a>(caller: u32, mut words: Words<'a>) -> Result<Order<'a>, Fault<'a>>
    ensures said { IfOk result (λ order. SaysBy (Some caller) order (codes "assign" ∷ words.entry)) }
    ensures refused { IfErr result (λ _. (unit start length : ℕ) (standing : Standing) → SaysCall (Some caller) (Assign caller unit start length standing) (codes "assign" ∷ words.entry) → ⊥) }
{
    Ok(Order::Ask(Ask::Call(Call::Assign {
        caller,
        unit: words.number("UNIT")?,
        start: words.number("START")?,
        length: words.number("LENGTH")?,
        standing: standing(words)?,
    })))
}

/// `[single]`, which ends the line.
fn standing<'a>(words: Words<'a>) -> Result<Standing, Fault<'a>>
    ensures said { IfOk result (λ standing. words.entry ≡ standing_words standing) }
    ensures refused { IfErr result (λ _. (standing : Standing) → words.entry ≢ standing_words standing) }
{
    Ok(if words.ends_with("single")? {
        Standing::SingleUser
    } else {
        Standing::Shared
    })
}

/// `deassign ROW [keep]`
fn deassign<'a>(caller: u32, mut words: Words<'a>) -> Result<Order<'a>, Fault<'a>>
    ensures said { IfOk result (λ order. SaysBy (Some caller) order (codes "deassign" ∷ words.entry)) }
    ensures refused { IfErr result (λ _. (row : ℕ) (keep : Bool) → SaysCall (Some caller) (Deassign caller row keep) (codes "deassign" ∷ words.entry) → ⊥) }
{
    Ok(Order::Ask(Ask::Call(Call::Deassign {
        caller,
        row: words.number("ROW")?,
        keep: words.ends_with("keep")?,
    })))
}

/// `set-range ROW START LENGTH`
fn set_range<'a>(caller: u32, mut words: Words<'a>) -> Result<Order<'a>, Fault<'a>>
    ensures said { IfOk result (λ order. SaysBy (Some caller) order (codes "set-range" ∷ words.entry)) }
    ensures refused { IfErr result (λ _. (row start length : ℕ) → SaysCall (Some caller) (SetRange caller row start length) (codes "set-range" ∷ words.entry) → ⊥) }
{
    Ok(Order::Ask(Ask::Call(Call::SetRange {
        caller,
        row: words.number("ROW")?,
        start: words.number("START")?,
        length: words.last_number("LENGTH")?,
    })))
}

/// `set-locks ROW [read-enabled] [write-enabled] [read-locked] [write-locked] [lock-on-reset]`
fn set_locks<'a>(caller: u32, mut words: Words<'a>) -> Result<Order<'a>, Fault<'a>>
    ensures { IfOk result (λ order. SaysBy (Some caller) order (codes "set-locks" ∷ words.entry)) }
{
    Ok(Order::Ask(Ask::Call(Call::SetLocks {
        caller,
        row: words.number("ROW")?,
        flags: flags(words)?,
    })))
}

/// The flags that the words name, in any order and to the end of the line. The others are false.
fn flags<'a>(words: Words<'a>) -> Result<Flags, Fault<'a>>
    ensures { IfOk result (λ flags. NameFlags words.entry flags) }
{
    let mut flags = Flags {
        read_lock_enabled: false,
        write_lock_enabled: false,
        read_locked: false,
        write_locked: false,
        lock_on_reset: false,
    };
    for word in words {
        match word {
            "read-enabled" => flags.read_lock_enabled = true,
            "write-enabled" => flags.write_lock_enabled = true,
            "read-locked" => flags.read_locked = true,
            "write-locked" => flags.write_locked = true,
            "lock-on-reset" => flags.lock_on_reset = true,
            _ => return Err(Fault::UnknownWord(word)),
        }
    }
    Ok(flags)
}

/// `gen-key ROW`
fn gen_key<'a>(caller: u32, words: Words<'a>) -> Result<Order<'a>, Fault<'a>>
    ensures said { IfOk result (λ order. SaysBy (Some caller) order (codes "gen-key" ∷ words.entry)) }
    ensures refused { IfErr result (λ _. (row : ℕ) → SaysCall (Some caller) (GenKey caller row) (codes "gen-key" ∷ words.entry) → ⊥) }
{
    Ok(Order::Ask(Ask::Call(Call::GenKey {
        caller,
        row: words.last_number("ROW")?,
    })))
}

/// `erase ROW`
fn erase<'a>(caller: u32, words: Words<'a>) -> Result<Order<'a>, Fault<'a>>
    ensures said { IfOk result (λ order. SaysBy (Some caller) order (codes "erase" ∷ words.entry)) }
    ensures refused { IfErr result (λ _. (row : ℕ) → SaysCall (Some caller) (Erase caller row) (codes "erase" ∷ words.entry) → ⊥) }
{
    Ok(Order::Ask(Ask::Call(Call::Erase {
        caller,
        row: words.last_number("ROW")?,
    })))
}

/// `reactivate POLICY [ROW ..]`
fn reactivate<'a>(caller: u32, mut words: Words<'a>) -> Result<Order<'a>, Fault<'a>>
    ensures { IfOk result (λ order. SaysBy (Some caller) order (codes "reactivate" ∷ words.entry)) }
{
    Ok(Order::Ask(Ask::Call(Call::Reactivate {
        caller,
        policy: words.number("POLICY")?,
        selection: selection(words)?,
    })))
}

/// The rows that the words name, in any order and to the end of the line: bit i stands for row i.
fn selection<'a>(words: Words<'a>) -> Result<u32, Fault<'a>>
    ensures { IfOk result (λ selection. NameRows words.entry selection) }
{
    let mut selection = 0;
    for word in words {
        let row: u32 = number_of(word)?;
        if row >= u32::BITS {
            return Err(Fault::TooLarge(word));
        }
        selection |= 1 << row;
    }
    Ok(selection)
}

/// `reset`
fn reset<'a>(caller: u32, words: Words<'a>) -> Result<Order<'a>, Fault<'a>>
    ensures { IfOk result (λ order. SaysBy (Some caller) order (codes "reset" ∷ words.entry)) }
{
    words.end()?;
    Ok(Order::Ask(Ask::Call(Call::Reset { caller })))
}

/// `read-row ROW`
fn read_row<'a>(caller: u32, words: Words<'a>) -> Result<Order<'a>, Fault<'a>>
    ensures said { IfOk result (λ order. SaysBy (Some caller) order (codes "read-row" ∷ words.entry)) }
    ensures refused { IfErr result (λ _. (row : ℕ) → SaysQuestion (Some caller) (question.ReadRow caller row) (codes "read-row" ∷ words.entry) → ⊥) }
{
    let row = words.last_number("ROW")?;
    Ok(Order::Ask(Ask::Question(Question::ReadRow { caller, row })))
}
