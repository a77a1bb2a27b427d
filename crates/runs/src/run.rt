ghost use Rattle.std.specs.Prelude.{◌≡◌, ◌∷◌, true, false, is_ok};
ghost use Rattle.rules.specs.Laws.{answers};
ghost use Rattle.runs.specs.LayingOut.{laid_out, laying_check};
ghost use Rattle.runs.specs.Promises.{RunsByTheRules};
ghost use Rattle.runs.specs.Runs.{answers_of_run, end_of_run};
ghost use Rattle.runs.specs.Steps.{calls_of, answers_of, after_all};
ghost use Rattle.runs.specs.Watching.{Watched};

use crate::make::make;
use crate::observer::Observer;
use crate::source::{Source, lay_out};
use crate::step::Step;
use rules::numbering::Numbering;
use table::calls::Calls;
use table::state::Table;
use vault::Vault;

/// Lays a table out over the vault and makes the call of each step in turn, before the eyes of the observer. The answers stand
/// in the steps; the table is as the last call left it.
pub fn run<'v, V: Vault, N: Numbering, O: Observer>(
    vault: &'v mut V,
    source: Source<'_>,
    steps: &mut [Step],
    observer: &mut O,
) -> Table<'v, V, N>
    ensures calls { calls_of steps.new ≡ calls_of steps.old }
    ensures answers { answers_of steps.new ≡ answers_of_run N.BOUNDS (V.meaning vault.old) source.entry (calls_of steps.old) }
    ensures last { ⟦<Table<'v, V, N> as Calls>⟧.model result ≡ end_of_run N.BOUNDS (V.meaning vault.old) source.entry (calls_of steps.old) }
    ensures lent { ⟦<Table<'v, V, N> as Calls>⟧.lenders result ≡ vault.entry.ghost_name ∷ V.KeySet.lenders vault.old }
    ensures kept { is_ok (laying_check N.BOUNDS (V.meaning vault.old) source.entry) ≡ false → result.vault.now ≡ vault.old }
    ensures watched { Watched O.saw (laid_out N.BOUNDS (V.meaning vault.old) source.entry) steps.new observer.old observer.new }
    ensures by_the_rules { RunsByTheRules N.BOUNDS (V.meaning vault.old) source.entry (calls_of steps.old) (answers_of steps.new) (⟦<Table<'v, V, N> as Calls>⟧.model result) }
{
    let mut table = lay_out(vault, source);
    make_all(&mut table, steps, observer);
    table
}

/// Makes the call of each step in turn, and writes its answer there.
pub fn make_all<C: Calls, O: Observer>(table: &mut C, steps: &mut [Step], observer: &mut O)
    ensures lent { C.lenders table.new ≡ C.lenders table.old }
    ensures calls { calls_of steps.new ≡ calls_of steps.old }
    ensures answers { answers_of steps.new ≡ answers (C.model table.old) (calls_of steps.old) }
    ensures last { C.model table.new ≡ after_all (C.model table.old) (calls_of steps.old) }
    ensures kept { (C.model table.old).closed ≡ true → table.new ≡ table.old }
    ensures watched { Watched O.saw (C.model table.old) steps.new observer.old observer.new }
{
    observer.see(table, &[]);
    for i in 0..steps.len() {
        steps[i].answer = make(table, steps[i].call);
        observer.see(table, &steps[..i + 1]);
    }
}
