ghost use Rattle.std.specs.Prelude.{◌≡◌, ◌+◌, ◌<◌, IfOk, length};
ghost use Rattle.segment_grammar.specs.Rows.{row_of};
ghost use Rattle.k_cheapest.specs.Ways.{AreWays};

use adapt_machine::{Machine, MachineKind};
use ml_base::{FrameNo, NoMemory, StateNo, StepNo};
use segment_grammar::Rows;
use std::alloc::Global;

/// The steps of a machine by where they end: flat steps and pops by the state that they enter, pushes by their frame.
#[derive(Drop)]
pub struct Ways {
    into: Rows<StepNo>,
    pushes: Rows<StepNo>,
}

/// Files the step of this number.
fn file(ways: &mut Ways, machine: &Machine, number: u64) -> Result<(), NoMemory>
    requires below { number < length machine.now.steps }
    requires filed { AreWays machine.now number ways.old }
    ensures filed { IfOk result (λ _. AreWays machine.now (number + 1) ways.new) }
{
    let step = machine.step(StepNo(number));
    if step.kind == MachineKind::Push {
        ways.pushes.add(step.frame.0, StepNo(number))?;
        return Ok(());
    }
    ways.into.add(step.to.0, StepNo(number))?;
    Ok(())
}

impl Ways {
    /// The steps of the machine.
    pub fn new(alloc: Global, machine: &Machine) -> Result<Ways, NoMemory>
        ensures { IfOk result (λ w. AreWays machine.now (length machine.now.steps) w) }
    {
        let mut ways = Ways {
            into: Rows::new(alloc, machine.states()),
            pushes: Rows::new(alloc, machine.frames()),
        };
        for number in 0..machine.steps() {
            file(&mut ways, machine, number)?;
        }
        Ok(ways)
    }

    /// The flat steps and pops that enter the state.
    pub fn into(&self, state: StateNo) -> &[StepNo]
        ensures { result.now ≡ row_of self.now.into state.0 }
    {
        self.into.row(state.0)
    }

    /// The pushes of the frame.
    pub fn pushes(&self, frame: FrameNo) -> &[StepNo]
        ensures { result.now ≡ row_of self.now.pushes frame.0 }
    {
        self.pushes.row(frame.0)
    }
}
