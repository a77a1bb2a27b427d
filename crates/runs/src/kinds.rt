ghost use Rattle.std.specs.Prelude.{◌≡◌, false, is_ok};
ghost use Rattle.vault.specs.Kinds.{chip_meaning, chip_new, fit, in_use, file_new};
ghost use Rattle.vault.specs.Views.{file_view};
ghost use Rattle.runs.specs.LayingOut.{laid_out, laying_check};
ghost use Rattle.runs.specs.Promises.{RunsByTheRules};
ghost use Rattle.runs.specs.Runs.{answers_of_run, end_of_run};
ghost use Rattle.runs.specs.Steps.{calls_of, answers_of};
ghost use Rattle.runs.specs.Watching.{Watched};

use crate::observer::Observer;
use crate::run::run;
use crate::source::Source;
use crate::step::Step;
use rules::numbering::Numbering;
use vault::Vault;
use vault::chip::KeyChip;
use vault::file::KeyFile;

/// A run after which only the vault is wanted.
pub fn run_over<V: Vault, N: Numbering, O: Observer>(
    vault: &mut V,
    source: Source<'_>,
    steps: &mut [Step],
    observer: &mut O,
)
    ensures calls { calls_of steps.new ≡ calls_of steps.old }
    ensures answers { answers_of steps.new ≡ answers_of_run N.BOUNDS (V.meaning vault.old) source.entry (calls_of steps.old) }
    ensures vault { V.meaning vault.new ≡ (end_of_run N.BOUNDS (V.meaning vault.old) source.entry (calls_of steps.old)).vault }
    ensures lent { V.KeySet.lenders vault.new ≡ V.KeySet.lenders vault.old }
    ensures kept { is_ok (laying_check N.BOUNDS (V.meaning vault.old) source.entry) ≡ false → vault.new ≡ vault.old }
    ensures watched { Watched O.saw (laid_out N.BOUNDS (V.meaning vault.old) source.entry) steps.new observer.old observer.new }
    ensures by_the_rules { RunsByTheRules N.BOUNDS (V.meaning vault.old) source.entry (calls_of steps.old) (answers_of steps.new)
        (end_of_run N.BOUNDS (V.meaning vault.old) source.entry (calls_of steps.old)) }
{
    let _table = run::<V, N, O>(vault, source, steps, observer);
}

/// A run over the registers of a key chip.
pub fn run_on_chip<N: Numbering, O: Observer>(
    registers: &mut [u32],
    source: Source<'_>,
    steps: &mut [Step],
    observer: &mut O,
)
    ensures calls { calls_of steps.new ≡ calls_of steps.old }
    ensures answers { answers_of steps.new ≡ answers_of_run N.BOUNDS (chip_new registers.old) source.entry (calls_of steps.old) }
    ensures registers { chip_meaning (in_use registers.old) registers.new ≡ (end_of_run N.BOUNDS (chip_new registers.old) source.entry (calls_of steps.old)).vault }
    ensures kept { is_ok (laying_check N.BOUNDS (chip_new registers.old) source.entry) ≡ false → registers.new ≡ registers.old }
    ensures unfit { fit registers.old ≡ false → registers.new ≡ registers.old }
    ensures watched { Watched O.saw (laid_out N.BOUNDS (chip_new registers.old) source.entry) steps.new observer.old observer.new }
    ensures by_the_rules { RunsByTheRules N.BOUNDS (chip_new registers.old) source.entry (calls_of steps.old) (answers_of steps.new)
        (end_of_run N.BOUNDS (chip_new registers.old) source.entry (calls_of steps.old)) }
{
    let mut chip = KeyChip::new(registers);
    run_over::<_, N, O>(&mut chip, source, steps, observer);
}

/// A run over a new key file of this capacity, which is handed back.
pub fn run_on_file<N: Numbering, O: Observer>(
    capacity: u32,
    source: Source<'_>,
    steps: &mut [Step],
    observer: &mut O,
) -> KeyFile
    ensures calls { calls_of steps.new ≡ calls_of steps.old }
    ensures answers { answers_of steps.new ≡ answers_of_run N.BOUNDS (file_new capacity) source.entry (calls_of steps.old) }
    ensures file { file_view result ≡ (end_of_run N.BOUNDS (file_new capacity) source.entry (calls_of steps.old)).vault }
    ensures watched { Watched O.saw (laid_out N.BOUNDS (file_new capacity) source.entry) steps.new observer.old observer.new }
    ensures by_the_rules { RunsByTheRules N.BOUNDS (file_new capacity) source.entry (calls_of steps.old) (answers_of steps.new)
        (end_of_run N.BOUNDS (file_new capacity) source.entry (calls_of steps.old)) }
{
    let mut file = KeyFile::new(capacity);
    run_over::<_, N, O>(&mut file, source, steps, observer);
    file
}
