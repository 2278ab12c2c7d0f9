use adapt_machine::{Machine, MachineKind, MachineStep};
use ml_base::{StateNo, StepNo};
use std::alloc::{AllocError, Global};

/// Which states are in one component, such that all states that a root reaches are: the ends of a flat step are together, and
/// so are all states that pushes of one frame leave and pops of that frame enter.
///
/// Each state has a number, and behind the states each frame has one, which stands for the states around it. The parent of a
/// number is in its component and never above it. A component goes by its least number, which is its own parent.
#[derive(Drop)]
pub struct Components {
    parents: Vec<u64>,
}

impl Components {
    /// The components of the machine's states.
    pub fn new(alloc: Global, machine: &Machine) -> Result<Components, AllocError> {
        let numbers = machine.states().saturating_add(machine.frames());
        let mut components = Components::apart(alloc, numbers)?;
        for number in 0..machine.steps() {
            components.join_ends(machine.states(), machine.step(StepNo(number)));
        }
        components.flatten();
        Ok(components)
    }

    /// Each number in a component of its own.
    fn apart(alloc: Global, numbers: u64) -> Result<Components, AllocError> {
        let mut parents = Vec::with_capacity(alloc, numbers as usize)?;
        for number in 0..numbers {
            parents.push(number)?;
        }
        Ok(Components { parents })
    }

    /// Puts the states that the step tells of into one component.
    fn join_ends(&mut self, states: u64, step: MachineStep) {
        let around = states.saturating_add(step.frame.0);
        match step.kind {
            MachineKind::Flat => self.join(step.from.0, step.to.0),
            MachineKind::Push => self.join(step.from.0, around),
            MachineKind::Pop => self.join(step.to.0, around),
        }
    }

    fn join(&mut self, number: u64, other: u64) {
        let least = self.least(number);
        let other_least = self.least(other);
        self.put(least.max(other_least), least.min(other_least));
    }

    /// The least number of the number's component. It halves the way there for the next time.
    fn least(&mut self, mut number: u64) -> u64 {
        for _ in 0..self.parents.len() {
            let parent = self.parent(number);
            if parent == number {
                return number;
            }
            let above = self.parent(parent);
            self.put(number, above);
            number = above;
        }
        number
    }

    /// Makes the least number of each component the parent of all its numbers: as parents are never above, those of parents
    /// are done first.
    fn flatten(&mut self) {
        for number in 0..self.parents.len() as u64 {
            let least = self.parent(self.parent(number));
            self.put(number, least);
        }
    }

    fn parent(&self, number: u64) -> u64 {
        self.parents.get(number as usize).copied().unwrap_or(number)
    }

    fn put(&mut self, number: u64, parent: u64) {
        if let Some(place) = self.parents.get_mut(number as usize) {
            *place = parent;
        }
    }

    /// The component of a state, by its least number.
    pub fn of(&self, state: StateNo) -> u64 {
        self.parent(state.0)
    }
}
