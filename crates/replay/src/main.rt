//! Goes through the worked sequence on a key file and on a key chip, and says of each step whether its reply came on both, and
//! whether it is also shown by proof from the definitions.
#![tactic(auto)]

mod run;
mod sequence;
mod show;

ghost use Rattle.std.specs.Prelude.{◌≡◌, ◌+◌, ◌<◌, false};

use rules::numbering::{Numbering, Nvme, Scsi};
use run::is_met_on_both;
use sequence::{Shown, Step, scsi_sequence, sequence};
use show::Words;
use shown::ShownReply;
use table::calls::Calls;
use table::state::Table;
use vault::chip::KeyChip;
use vault::file::KeyFile;

/// What was found.
#[derive(Clone, Copy, Default)]
struct Tally {
    /// The replies that came on both tables.
    same: u32,
    /// Those of them that are also shown by proof.
    proved: u32,
    differ: u32,
}

fn main(rt: HostRuntime) -> anyhow::Result<()> {
    let mut tally = Tally::default();
    println!(rt; "NVMe, capacity 15, over a key file and over a key chip")?;
    go_through::<Nvme>(&rt, &sequence(), true, &mut tally)?;
    println!(rt; "the same under SCSI")?;
    // What is proved of this sequence is proved under NVMe.
    go_through::<Scsi>(&rt, &sequence(), false, &mut tally)?;
    println!(rt; "SCSI, where unit 0 is a unit like any other")?;
    go_through::<Scsi>(&rt, &scsi_sequence(), true, &mut tally)?;
    let Tally {
        same,
        proved,
        differ,
    } = tally;
    println!(rt; "{same} the same, {proved} of them also by proof, {differ} differ")?;
    Ok(())
}

/// Lays a blank table out over an empty key file, another over an empty key chip, and goes through the stages on both.
fn go_through<N: Numbering>(
    rt: &HostRuntime,
    stages: &[[Step; 8]],
    has_proof: bool,
    tally: &mut Tally,
) -> anyhow::Result<()> {
    let mut file = KeyFile::new(15);
    let mut registers = [0; 15];
    let mut chip = KeyChip::new(&mut registers);
    let mut on_file = Table::<_, N>::fresh(&mut file);
    let mut on_chip = Table::<_, N>::fresh(&mut chip);
    for step in stages.iter().flatten().copied() {
        let shown = if has_proof { step.shown } else { Shown::ByRun };
        let step = Step { shown, ..step };
        show_step(rt, &mut on_file, &mut on_chip, N::BOUNDS.mark, step, tally)?;
    }
    Ok(())
}

/// Makes a step on both tables, and prints it and what was found. The mark is that of their rows without a unit.
fn show_step<F: Calls, C: Calls>(
    rt: &HostRuntime,
    on_file: &mut F,
    on_chip: &mut C,
    mark: u32,
    step: Step,
    tally: &mut Tally,
) -> anyhow::Result<()> {
    let found = tally.found(is_met_on_both(on_file, on_chip, step), step.shown);
    let ask = Words(step.ask);
    // The sequence names a refusal by its number alone.
    let reply = ShownReply {
        ask: step.ask,
        reply: step.reply,
        mark,
        with_status: false,
    };
    println!(rt; "{ask} => {reply}  ({found})")?;
    Ok(())
}

impl Tally {
    /// Counts a step, and says what was found.
    fn found(&mut self, is_same: bool, shown: Shown) -> &'static str
        ensures same { is_same ≡ false → (self.new.same ≡ self.old.same) × (self.new.proved ≡ self.old.proved) }
        ensures differ { is_same ≡ false → self.old.differ < 4294967295 → self.new.differ ≡ self.old.differ + 1 }
    {
        if !is_same {
            self.differ = self.differ.saturating_add(1);
            return "DIFFERS";
        }
        self.same = self.same.saturating_add(1);
        match shown {
            Shown::ByProof => {
                self.proved = self.proved.saturating_add(1);
                "the same on file and chip, and by proof"
            }
            Shown::ByRun => "the same on file and chip",
        }
    }
}
