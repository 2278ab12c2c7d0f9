ghost use Rattle.std.specs.Prelude.{◌≡◌, ◌<◌, ◌*◌, ◌/◌, ◌%◌, IfOk, length, slice_get, Some};
ghost use Rattle.marked_machine.specs.MarkedRuns.{base_of};
ghost use Rattle.marked_machine.specs.Product.{place_of, IsProduct};

use crate::building::make_steps;
use crate::marks::Marks;
use crate::numbers::place_of;
use adapt_machine::Machine;
use ml_base::{NoMemory, StateNo, StepNo};
use std::alloc::Global;
use std::marker::Model;

/// The product of a machine with a rule of marks. Contracts see its machine, the base of each step, and the number of marks.
#[derive(Debug, Drop)]
pub struct Product {
    machine: Machine,
    bases: Vec<StepNo>,
    count: u64,
}

impl Model for Product {
    ghost use Rattle.std.specs.Prelude.{◌≡◌, length};
    ghost use Rattle.marked_machine.specs.Product.{ProductValue};

    ghost Value = { ProductValue };

    ghost view = { λ p. record { machine = p.machine; bases = p.bases.items; count = p.count } };

    ghost invariant = { λ p. record {
      bases : length p.bases.items ≡ length p.machine.steps;
      states : p.count ≡ 0 → p.machine.states ≡ 0;
    } };
}

/// The product of two numbers, if there is memory for that many.
fn times(base: u64, count: u64) -> Result<u64, NoMemory>
    ensures { IfOk result (λ product. product ≡ base * count) }
{
    match base.checked_mul(count) {
        Some(product) => Ok(product),
        None => Err(NoMemory),
    }
}

impl Product {
    /// The product of the machine with the rule. A product whose states, frames or cells of a row are 2^64 or more finds no memory.
    pub fn new(alloc: Global, machine: &Machine, marks: &Marks) -> Result<Product, NoMemory>
        ensures { IfOk result (IsProduct machine.now marks.now) }
    {
        let states = times(machine.states(), marks.count)?;
        let frames = times(machine.frames(), marks.frame_count)?;
        times(marks.frame_count, marks.count)?;
        let made = make_steps(alloc, machine, marks)?;
        Ok(Product {
            machine: Machine::of_steps(states, frames, made.steps),
            bases: made.bases,
            count: marks.count,
        })
    }

    /// The machine.
    pub fn machine(&self) -> &Machine
        ensures { result.now ≡ self.now.machine }
    {
        &self.machine
    }

    /// The state of the product at a state of the machine and a mark. It must be below the product's.
    pub fn state(&self, base: StateNo, mark: u64) -> StateNo
        requires { place_of self.now.count base.0 mark < self.now.machine.states }
        ensures { result.0 ≡ place_of self.now.count base.0 mark }
    {
        let _states = self.machine.states();
        StateNo(place_of(self.count, base.0, mark))
    }

    /// The state of the machine at a state of the product.
    pub fn base_state(&self, state: StateNo) -> StateNo
        requires { state.0 < self.now.machine.states }
        ensures { result.0 ≡ state.0 / self.now.count }
    {
        StateNo(state.0 / self.count)
    }

    /// The mark at a state of the product.
    pub fn mark(&self, state: StateNo) -> u64
        requires { state.0 < self.now.machine.states }
        ensures { result ≡ state.0 % self.now.count }
    {
        state.0 % self.count
    }

    /// The step of the machine that a step of the product comes from.
    pub fn base_step(&self, step: StepNo) -> StepNo
        requires { step.0 < length self.now.machine.steps }
        ensures found { slice_get self.now.bases step.0 ≡ Some result }
        ensures is_base { result.0 ≡ base_of self.now.bases step.0 }
    {
        self.bases[step.0 as usize]
    }
}
