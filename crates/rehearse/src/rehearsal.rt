use crate::closing::report;
use crate::telling::Teller;
use crate::vaults::{Beginning, file_with, write_registers};
use rules::ask::Ask;
use rules::numbering::{Numbering, Nvme, Scsi};
use runs::run::run;
use runs::source::check;
use runs::step::Step;
use script::{Line, NumberingKind, Order, Script, VaultKind};
use std::alloc::{AllocError, Global};
use vault::Vault;
use vault::chip::KeyChip;

/// Rehearses the script over a vault of the kind that it names. A match picks the types, so each kind is compiled by itself.
pub fn perform(rt: &HostRuntime, script: &Script) -> anyhow::Result<()> {
    match script.layout.numbering {
        NumberingKind::Nvme => over_vault::<Nvme>(rt, script),
        NumberingKind::Scsi => over_vault::<Scsi>(rt, script),
    }
}

fn over_vault<N: Numbering>(rt: &HostRuntime, script: &Script) -> anyhow::Result<()> {
    let beginning = Beginning::of(rt, script, N::BOUNDS)?;
    let serials = beginning.serials.as_slice();
    let capacity = script.layout.capacity;
    match script.layout.vault {
        VaultKind::File => {
            let mut file = file_with(capacity, serials);
            rehearse::<_, N>(rt, script, &beginning, &mut file)
        }
        VaultKind::Chip => {
            // More than 64 registers are unfit, however many there are, so 65 stand for any such number.
            let mut registers = [0; 65];
            // At most 65, so the cast cannot fail.
            let count = capacity.min(65) as usize;
            let chip = &mut registers[0..count];
            write_registers(chip, serials);
            rehearse::<_, N>(rt, script, &beginning, &mut KeyChip::new(chip))
        }
    }
}

/// Lays the table out, makes the calls in their order, and prints what took place. All that changes the table is the one run.
fn rehearse<V: Vault, N: Numbering>(
    rt: &HostRuntime,
    script: &Script,
    beginning: &Beginning,
    vault: &mut V,
) -> anyhow::Result<()> {
    let source = beginning.source();
    let mut steps = steps_of(rt.alloc(), script.lines.as_slice())?;
    let check = check::<V, N>(vault, source);
    let mut teller = Teller::new(rt, script, N::BOUNDS.mark, check);
    let table = run::<V, N, _>(vault, source, steps.as_mut_slice(), &mut teller);
    let gone = teller.end()?;
    report(
        rt,
        &table,
        N::BOUNDS,
        beginning.serials.as_slice(),
        gone.as_slice(),
    )
}

/// The calls of a script. What is asked between them is answered at its point of the run.
fn steps_of(heap: Global, lines: &[Line]) -> Result<Vec<Step>, AllocError> {
    let mut steps = Vec::new(heap);
    for line in lines {
        if let Order::Ask(Ask::Call(call)) = line.order {
            steps.push(Step::of(call))?;
        }
    }
    Ok(steps)
}
