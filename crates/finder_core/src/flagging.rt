ghost use Rattle.std.specs.Prelude.{◌≡◌, ◌<◌, IfOk, None, length, replicate};
ghost use Rattle.repeat_flags.specs.Visits.{noted};
ghost use Rattle.finder_core.specs.Passing.{AddsFlag, state_left};

use answer_spec::FlagList;
use machine_build::Built;
use ml_base::{NoMemory, StepNo};
use repeat_flags::Flags;
use std::alloc::Global;

/// The visits of a walk that begins with this step: the state that the step leaves is visited at 0.
pub fn begin_visits(alloc: Global, built: &Built, step: StepNo) -> Result<Flags, NoMemory>
    requires within { step.0 < length built.now.machine.steps }
    ensures { IfOk result (λ visited. visited ≡ noted (replicate built.now.machine.states None) (state_left built.now.machine.steps step.0) 0) }
{
    let machine = built.machine();
    let start = machine.step(step).from;
    let mut visited = Flags::new(alloc, machine.states())?;
    visited.visit(start, 0);
    Ok(visited)
}

/// Adds the flag of a step, and visits the state that it enters at the number of its hop.
pub fn add_flag(
    built: &Built,
    visited: &mut Flags,
    flags: &mut FlagList,
    hop: u64,
    step: StepNo,
) -> Result<(), NoMemory>
    requires within { step.0 < length built.now.machine.steps }
    requires room { length visited.old ≡ built.now.machine.states }
    ensures { IfOk result (λ _. AddsFlag built.now.machine.steps step.0 hop visited.old flags.old visited.new flags.new) }
{
    let state = built.machine().step(step).to;
    let flag = visited.visit(state, hop);
    flags.push(flag)?;
    Ok(())
}
