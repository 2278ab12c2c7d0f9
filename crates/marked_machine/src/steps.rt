ghost use Rattle.std.specs.Prelude.{◌≡◌, [], ◌∷◌, IfOk};
ghost use Rattle.marked_machine.specs.Product.{GoesOn};

use adapt_machine::MachineStep;
use ml_base::{NoMemory, StepNo};
use std::alloc::Global;

/// The steps of a product, as far as they are made, and the steps that they come from.
#[derive(Drop)]
pub struct MarkedSteps {
    pub steps: Vec<MachineStep>,
    pub bases: Vec<StepNo>,
}

impl MarkedSteps {
    /// None.
    pub fn new(alloc: Global) -> MarkedSteps
        ensures steps { result.steps.items ≡ [] }
        ensures bases { result.bases.items ≡ [] }
    {
        MarkedSteps {
            steps: Vec::new(alloc),
            bases: Vec::new(alloc),
        }
    }

    /// Puts a step at the end.
    pub fn push(&mut self, step: MachineStep, base: StepNo) -> Result<(), NoMemory>
        ensures { IfOk result (λ _. GoesOn self.old (record { step = step; base = base } ∷ []) self.new) }
    {
        self.steps.push(step)?;
        self.bases.push(base)?;
        Ok(())
    }
}
