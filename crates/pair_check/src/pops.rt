ghost use Rattle.std.specs.Prelude.{◌≡◌, ◌+◌, ◌<◌, length, IfOk};
ghost use Rattle.pair_check.specs.Exits.{ArePopsIn};

use adapt_machine::{Machine, MachineKind};
use ml_base::{NoMemory, StepNo};
use segment_grammar::{Index, Rows};
use std::alloc::Global;

/// The steps of a machine by where they begin, and its pops by their frames.
#[derive(Clone, Copy)]
pub(crate) struct Steps<'a> {
    pub index: &'a Index,
    pub pops: &'a Rows<StepNo>,
}

/// Adds the step to the row of its frame, if it is a pop.
fn add_pop(rows: &mut Rows<StepNo>, machine: &Machine, step: u64) -> Result<(), NoMemory>
    requires below { step < length machine.now.steps }
    requires wide { length rows.old ≡ machine.now.frames }
    requires pops { ArePopsIn machine.now.steps step rows.old }
    ensures wide { IfOk result (λ _. length rows.new ≡ machine.now.frames) }
    ensures pops { IfOk result (λ _. ArePopsIn machine.now.steps (step + 1) rows.new) }
{
    let pop = machine.step(StepNo(step));
    if pop.kind != MachineKind::Pop {
        return Ok(());
    }
    rows.add(pop.frame.0, StepNo(step))?;
    Ok(())
}

/// A row of pops for each frame, with all pops that have it.
pub(crate) fn pops_by_frame(alloc: Global, machine: &Machine) -> Result<Rows<StepNo>, NoMemory>
    ensures { IfOk result (λ rows. ArePopsIn machine.now.steps (length machine.now.steps) rows) }
{
    let steps = machine.steps();
    let mut rows = Rows::new(alloc, machine.frames());
    for step in 0..steps {
        add_pop(&mut rows, machine, step)?;
    }
    Ok(rows)
}
