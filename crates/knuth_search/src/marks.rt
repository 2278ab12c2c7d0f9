ghost use Rattle.std.specs.Prelude.{◌≡◌, ◌<◌, ℕ, true, length, slice_get, Some, IfOk};
ghost use Rattle.adapt_machine.specs.declared.MachineKind.TheVariants.{Pop};
ghost use Rattle.knuth_search.specs.Tables.{AreMarks};

use adapt_machine::{Machine, MachineKind, MachineStep};
use ml_base::{NoMemory, StepNo};
use std::alloc::Global;

fn unmarked(alloc: Global, count: u64) -> Result<Vec<bool>, NoMemory>
    ensures { IfOk result (λ marks. length marks.items ≡ count) }
{
    let mut marks = Vec::new(alloc);
    for _state in 0..count {
        if marks.push(false).is_err() {
            return Err(NoMemory);
        }
    }
    Ok(marks)
}

/// Marks the state that the step leaves, if it is a pop.
fn mark(marks: &mut Vec<bool>, step: MachineStep)
    requires { step.from.0 < length marks.old.items }
    ensures rooms { length marks.new.items ≡ length marks.old.items }
    ensures here { step.kind ≡ Pop → slice_get marks.new.items step.from.0 ≡ Some true }
    ensures kept { (i : ℕ) → slice_get marks.old.items i ≡ Some true → slice_get marks.new.items i ≡ Some true }
{
    if step.kind != MachineKind::Pop {
        return;
    }
    marks[step.from.0 as usize] = true;
}

/// The states that a pop leaves, by number. The steps are passed through where the machine has frames.
pub fn popped_states(alloc: Global, machine: &Machine) -> Result<Vec<bool>, NoMemory>
    ensures { IfOk result (λ marks. AreMarks machine.now Pop marks.items) }
{
    let mut marks = unmarked(alloc, machine.states())?;
    let steps = machine.steps();
    if machine.frames() == 0 {
        return Ok(marks);
    }
    for number in 0..steps {
        mark(&mut marks, machine.step(StepNo(number)));
    }
    Ok(marks)
}
