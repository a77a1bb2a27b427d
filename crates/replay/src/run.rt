ghost use Rattle.std.specs.Prelude.{◌≡◌, ◌↔◌, IsTrue};
ghost use Rattle.rules.specs.Asks.{reply_to, left_by};

use crate::sequence::Step;
use rules::ask::{Ask, Reply, Told};
use runs::make::{make, reply};
use table::calls::Calls;

/// Makes a call of a table, or asks it a question.
pub fn ask<C: Calls>(table: &mut C, ask: Ask) -> Reply
    ensures lent { C.lenders table.new ≡ C.lenders table.old }
    ensures reply { result ≡ reply_to (C.model table.old) ask }
    ensures after { C.model table.new ≡ left_by (C.model table.old) ask }
{
    match ask {
        Ask::Call(call) => Ok(Told::Answered(make(table, call)?)),
        Ask::Question(question) => reply(table, question),
    }
}

/// Whether the listed reply came.
pub fn is_same(came: Reply, listed: Reply) -> bool
    ensures { IsTrue result ↔ (came ≡ listed) }
{
    came == listed
}

/// Makes a step on two tables, and says whether its reply came on both.
pub fn is_met_on_both<A: Calls, B: Calls>(one: &mut A, other: &mut B, step: Step) -> bool
    ensures lent { (A.lenders one.new ≡ A.lenders one.old) × (B.lenders other.new ≡ B.lenders other.old) }
    ensures met { IsTrue result ↔ ((reply_to (A.model one.old) step.ask ≡ step.reply) × (reply_to (B.model other.old) step.ask ≡ step.reply)) }
    ensures one { A.model one.new ≡ left_by (A.model one.old) step.ask }
    ensures other { B.model other.new ≡ left_by (B.model other.old) step.ask }
{
    let came = ask(one, step.ask);
    let came_too = ask(other, step.ask);
    is_same(came, step.reply) && is_same(came_too, step.reply)
}
