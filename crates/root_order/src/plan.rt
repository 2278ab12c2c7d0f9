ghost use Rattle.std.specs.Prelude.{◌≡◌, ◌<◌, ◌≤◌, ◌+◌, IfOk, length, vec_len};
ghost use Rattle.ml_base.specs.declared.numbers.Root.TheVariants.{Request};
ghost use Rattle.root_order.specs.Plan.{lane_of};

use crate::roots::{RankedRoot, ranked_roots};
use adapt_machine::Machine;
use ml_base::{NoMemory, Root};
use std::alloc::{AllocError, Global};
use std::marker::Model;

/// A lane for each root. A search that takes lanes with lower numbers first searches an inner root to its end before it goes
/// on outside, wherever pushes nest without a cycle. Any lanes are right: they serve speed alone.
#[derive(Debug, Drop)]
pub struct Plan {
    by_state: Vec<u64>,
    count: u64,
}

impl Model for Plan {
    ghost use Rattle.std.specs.Prelude.{◌<◌};
    ghost use Rattle.root_order.specs.Plan.{PlanValue};

    ghost Value = { PlanValue };

    ghost view = { λ p. record { by_state = p.by_state.items; lanes = p.count } };

    ghost invariant = { λ p. 0 < p.count };
}

impl Plan {
    /// The lanes of the machine's roots. States are in one component where a root may reach both. A component has a rank once
    /// all that its pushes enter have one, so none has that is on a cycle of pushes or leads to one. Each entered state of a
    /// ranked component has a lane of its own, by rank and state, and all other roots share the last. Takes time about linear
    /// in states, frames and steps, and none where there are no frames.
    pub fn new(alloc: Global, machine: &Machine) -> Result<Plan, NoMemory>
        ensures flat { machine.now.frames ≡ 0 → IfOk result (λ p. p.lanes ≡ 1) }
        ensures few { IfOk result (λ p. p.lanes ≤ machine.now.states + 1) }
    {
        if machine.frames() == 0 {
            return Ok(Plan {
                by_state: Vec::new(alloc),
                count: 1,
            });
        }
        match Plan::nested(alloc, machine) {
            Ok(plan) => Ok(plan),
            Err(_) => Err(NoMemory),
        }
    }

    fn nested(alloc: Global, machine: &Machine) -> Result<Plan, AllocError>
        ensures { IfOk result (λ p. p.lanes ≤ machine.now.states + 1) }
    {
        let roots = ranked_roots(alloc, machine)?;
        let last = roots.len() as u64;
        let by_state = lanes_of(alloc, machine.states(), roots.as_slice())?;
        Ok(Plan {
            by_state,
            count: last + 1,
        })
    }

    /// How many lanes there are.
    pub fn lanes(&self) -> u64
        ensures value { result ≡ self.now.lanes }
        ensures some { 1 ≤ result }
    {
        self.count
    }

    /// The lane of a root.
    pub fn lane(&self, root: Root) -> u64
        ensures value { result ≡ lane_of self.now root }
        ensures below { result < self.now.lanes }
        ensures request { root ≡ Request → result + 1 ≡ self.now.lanes }
    {
        let last = self.count - 1;
        match root {
            Root::Request => last,
            Root::Entry(state) => self
                .by_state
                .get(state.0 as usize)
                .copied()
                .unwrap_or(last)
                .min(last),
        }
    }
}

/// For each state its place among the roots, and for those that are none the place behind them.
fn lanes_of(alloc: Global, states: u64, roots: &[RankedRoot]) -> Result<Vec<u64>, AllocError> {
    let mut lanes = vec![in alloc; roots.len() as u64; states as usize]?;
    for (place, root) in roots.iter().enumerate() {
        if let Some(lane) = lanes.get_mut(root.state.0 as usize) {
            *lane = place as u64;
        }
    }
    Ok(lanes)
}
