//! Reads what has no caller, each after its first word and to the end of its line.
ghost use Rattle.std.specs.Prelude.{◌≡◌, ℕ, [], ◌∷◌, IfErr, IfOk, codes};
ghost use Rattle.rules.specs.declared.call.Call.TheVariants.{Create, Delete, Format};
ghost use Rattle.rules.specs.declared.ask.Question.TheVariants as question;
ghost use Rattle.lines.specs.Says.{SaysBy, SaysCall, SaysQuestion};
ghost use Rattle.lines.specs.Spelling.{access_word};

use crate::calls::Order;
use crate::fault::Fault;
use crate::words::Words;
use rules::access::Access;
use rules::ask::{Ask, Question};
use rules::call::Call;

// Each call is read by a function of its own, which names its fields: one for two calls would be told them by its caller.
/// `create UNIT BLOCKS`
pub fn create<'a>(mut words: Words<'a>) -> Result<Order<'a>, Fault<'a>>
    ensures said { IfOk result (λ order. SaysBy None order (codes "create" ∷ words.entry)) }
    ensures refused { IfErr result (λ _. (unit blocks : ℕ) → SaysCall None (Create unit blocks) (codes "create" ∷ words.entry) → ⊥) }
{
    Ok(Order::Ask(Ask::Call(Call::Create {
        unit: words.number("UNIT")?,
        blocks: words.last_number("BLOCKS")?,
    })))
}

/// `delete UNIT`
pub fn delete<'a>(words: Words<'a>) -> Result<Order<'a>, Fault<'a>>
    ensures said { IfOk result (λ order. SaysBy None order (codes "delete" ∷ words.entry)) }
    ensures refused { IfErr result (λ _. (unit : ℕ) → SaysCall None (Delete unit) (codes "delete" ∷ words.entry) → ⊥) }
{
    Ok(Order::Ask(Ask::Call(Call::Delete {
        unit: words.last_number("UNIT")?,
    })))
}

/// `format UNIT`
pub fn format<'a>(words: Words<'a>) -> Result<Order<'a>, Fault<'a>>
    ensures said { IfOk result (λ order. SaysBy None order (codes "format" ∷ words.entry)) }
    ensures refused { IfErr result (λ _. (unit : ℕ) → SaysCall None (Format unit) (codes "format" ∷ words.entry) → ⊥) }
{
    Ok(Order::Ask(Ask::Call(Call::Format {
        unit: words.last_number("UNIT")?,
    })))
}

/// `access read|write UNIT FIRST COUNT`
pub fn access<'a>(mut words: Words<'a>) -> Result<Order<'a>, Fault<'a>>
    ensures { IfOk result (λ order. SaysBy None order (codes "access" ∷ words.entry)) }
{
    match words.word("`read` or `write`")? {
        "read" => access_to(Access::Read, words),
        "write" => access_to(Access::Write, words),
        word => Err(Fault::UnknownWord(word)),
    }
}

/// `UNIT FIRST COUNT`, the blocks that are to be read or written.
fn access_to<'a>(access: Access, mut words: Words<'a>) -> Result<Order<'a>, Fault<'a>>
    ensures said { IfOk result (λ order. SaysBy None order (codes "access" ∷ access_word access ∷ words.entry)) }
    ensures refused { IfErr result (λ _. (unit first count : ℕ) → SaysQuestion None (question.Access access unit first count) (codes "access" ∷ access_word access ∷ words.entry) → ⊥) }
{
    Ok(Order::Ask(Ask::Question(Question::Access {
        access,
        unit: words.number("UNIT")?,
        first: words.number("FIRST")?,
        count: words.last_number("COUNT")?,
    })))
}

/// `controls UNIT BLOCK`
pub fn controls<'a>(mut words: Words<'a>) -> Result<Order<'a>, Fault<'a>>
    ensures said { IfOk result (λ order. SaysBy None order (codes "controls" ∷ words.entry)) }
    ensures refused { IfErr result (λ _. (unit block : ℕ) → SaysQuestion None (question.Controls unit block) (codes "controls" ∷ words.entry) → ⊥) }
{
    Ok(Order::Ask(Ask::Question(Question::Controls {
        unit: words.number("UNIT")?,
        block: words.last_number("BLOCK")?,
    })))
}

/// `unused`
pub fn unused<'a>(words: Words<'a>) -> Result<Order<'a>, Fault<'a>>
    ensures { IfOk result (λ order. SaysBy None order (codes "unused" ∷ words.entry)) }
{
    words.end()?;
    Ok(Order::Ask(Ask::Question(Question::Unused)))
}

/// `describe`
pub fn describe<'a>(words: Words<'a>) -> Result<Order<'a>, Fault<'a>>
    ensures { IfOk result (λ order. SaysBy None order (codes "describe" ∷ words.entry)) }
{
    words.end()?;
    Ok(Order::Describe)
}

/// `save SHEET`
pub fn save<'a>(mut words: Words<'a>) -> Result<Order<'a>, Fault<'a>>
    ensures { IfOk result (λ order. SaysBy None order (codes "save" ∷ words.entry)) }
{
    let path = words.word("SHEET")?;
    words.end()?;
    Ok(Order::Save { path })
}
