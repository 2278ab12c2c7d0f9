//! The least weights of small machines by the definition alone: a table of all pairs, lowered by the four rules until nothing
//! changes. It knows no queue, no index and no derivation.
use adapt_machine::{Machine, MachineKind, MachineStep};
use ml_base::{FrameNo, NoMemory, Root, StateNo, StepNo, Weight};
use segment_grammar::Pot;
use std::alloc::Global;

/// A row for each root, the request first, and in it a place for each state.
#[derive(Drop)]
pub struct Saturation {
    rows: Vec<Vec<Option<Weight>>>,
}

/// The row of a root.
fn row_of(root: Root) -> usize {
    match root {
        Root::Request => 0,
        Root::Entry(state) => (state.0 as usize).saturating_add(1),
    }
}

fn weight_of(step: MachineStep) -> Weight {
    Weight::known(step.cost, 1)
}

impl Saturation {
    fn new(alloc: Global, states: u64) -> Result<Saturation, NoMemory> {
        let mut rows = Vec::new(alloc);
        for _root in 0..states.saturating_add(1) {
            let mut row = Vec::new(alloc);
            for _state in 0..states {
                if row.push(None).is_err() {
                    return Err(NoMemory);
                }
            }
            if rows.push(row).is_err() {
                return Err(NoMemory);
            }
        }
        Ok(Saturation { rows })
    }

    /// What is listed of a pair.
    pub fn weight(&self, root: Root, state: StateNo) -> Option<Weight> {
        *self.rows.get(row_of(root))?.get(state.0 as usize)?
    }

    /// Lists the weight where it is below what is listed, and answers whether it was.
    fn lower(&mut self, root: Root, state: StateNo, weight: Weight) -> bool {
        if let Some(listed) = self.weight(root, state) {
            if listed.is_at_most(weight) {
                return false;
            }
        }
        let Some(row) = self.rows.get_mut(row_of(root)) else {
            return false;
        };
        let Some(place) = row.get_mut(state.0 as usize) else {
            return false;
        };
        *place = Some(weight);
        true
    }

    /// The pop takes the frame of the push off behind the pairs of the root that the push enters.
    fn nest(&mut self, root: Root, so_far: Weight, push: MachineStep, pop: MachineStep) -> bool {
        if pop.kind != MachineKind::Pop || pop.frame != push.frame {
            return false;
        }
        let Some(inner) = self.weight(Root::Entry(push.to), pop.from) else {
            return false;
        };
        let inside = weight_of(push).plus(inner).plus(weight_of(pop));
        self.lower(root, pop.to, so_far.plus(inside))
    }

    /// What the step makes of the pair that it leaves, under this root.
    fn follow(&mut self, machine: &Machine, root: Root, step: MachineStep) -> bool {
        let Some(so_far) = self.weight(root, step.from) else {
            return false;
        };
        match step.kind {
            MachineKind::Pop => false,
            MachineKind::Flat => self.lower(root, step.to, so_far.plus(weight_of(step))),
            MachineKind::Push => {
                let mut changed = self.lower(Root::Entry(step.to), step.to, Weight::zero());
                for number in 0..machine.steps() {
                    let pop = machine.step(StepNo(number));
                    changed = self.nest(root, so_far, step, pop) || changed;
                }
                changed
            }
        }
    }

    /// All steps under one root.
    fn sweep(&mut self, machine: &Machine, root: Root) -> bool {
        let mut changed = false;
        for number in 0..machine.steps() {
            changed = self.follow(machine, root, machine.step(StepNo(number))) || changed;
        }
        changed
    }

    /// All steps under all roots.
    fn round(&mut self, machine: &Machine) -> bool {
        let mut changed = self.sweep(machine, Root::Request);
        for state in 0..machine.states() {
            changed = self.sweep(machine, Root::Entry(StateNo(state))) || changed;
        }
        changed
    }

    /// The listed pairs, by root and then by state.
    pub fn pots(&self, alloc: Global, machine: &Machine) -> Result<Vec<Pot>, NoMemory> {
        let mut pots = Vec::new(alloc);
        self.push_pots(machine, Root::Request, &mut pots)?;
        for state in 0..machine.states() {
            self.push_pots(machine, Root::Entry(StateNo(state)), &mut pots)?;
        }
        Ok(pots)
    }

    fn push_pots(
        &self,
        machine: &Machine,
        root: Root,
        pots: &mut Vec<Pot>,
    ) -> Result<(), NoMemory> {
        for number in 0..machine.states() {
            let state = StateNo(number);
            if let Some(weight) = self.weight(root, state) {
                if pots
                    .push(Pot {
                        root,
                        state,
                        weight,
                    })
                    .is_err()
                {
                    return Err(NoMemory);
                }
            }
        }
        Ok(())
    }
}

/// The table of a machine from these starts, or None where it still changes after a thousand rounds.
pub fn saturate(
    alloc: Global,
    machine: &Machine,
    starts: &[StateNo],
) -> Result<Option<Saturation>, NoMemory> {
    let mut table = Saturation::new(alloc, machine.states())?;
    for start in starts {
        table.lower(Root::Request, *start, Weight::zero());
    }
    for _round in 0..1000u64 {
        if !table.round(machine) {
            return Ok(Some(table));
        }
    }
    Ok(None)
}

/// A step of a small machine: kind, from, to, frame and cost.
pub type Small = (MachineKind, u64, u64, u64, u64);

fn add(machine: &mut Machine, step: Small) -> Result<(), NoMemory> {
    let (kind, from, to, frame, cost) = step;
    if from >= machine.states() || to >= machine.states() || frame >= machine.frames() {
        return Ok(());
    }
    let (from, to, frame) = (StateNo(from), StateNo(to), FrameNo(frame));
    match kind {
        MachineKind::Flat => machine.add_flat(from, to, cost)?,
        MachineKind::Push => machine.add_push(from, to, frame, cost)?,
        MachineKind::Pop => machine.add_pop(from, to, frame, cost)?,
    };
    Ok(())
}

/// The machine of these steps; a step over numbers that it does not have is left out.
pub fn small_machine(
    alloc: Global,
    states: u64,
    frames: u64,
    steps: &[Small],
) -> Result<Machine, NoMemory> {
    let mut machine = Machine::new(alloc, states, frames);
    for step in steps {
        add(&mut machine, *step)?;
    }
    Ok(machine)
}
