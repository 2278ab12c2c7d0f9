//! A pushdown machine: numbers of states and frames, and a list of steps with costs. Contracts see it as those three.
#![tactic(auto)]

ghost use Rattle.std.specs.Prelude.{◌≡◌, ◌<◌, ◌++◌, ◌∷◌, [], length, slice_get, IfOk, OnErr, Some};
ghost use Rattle.std.specs.List.{All};
ghost use Rattle.adapt_machine.specs.Machine.{MachineValue, empty_machine, with_step, IsStepWithin, flat_step, push_step, pop_step};

use ml_base::{FrameNo, NoMemory, StateNo, StepNo};
use std::alloc::Global;
use std::marker::Model;

/// What a step does to the stack: keeps it, puts its frame on top, or takes its frame off.
#[derive(Clone, Copy, Debug, PartialEq, Eq)]
pub enum MachineKind {
    Flat,
    Push,
    Pop,
}

/// A step. The frame is 0 for `Flat`. Its weight is its cost and one hop.
#[derive(Clone, Copy, Debug, PartialEq, Eq)]
pub struct MachineStep {
    pub kind: MachineKind,
    pub from: StateNo,
    pub to: StateNo,
    pub frame: FrameNo,
    pub cost: u64,
}

/// States and frames by number, and steps by their place in the order of adding.
#[derive(Debug, Drop)]
pub struct Machine {
    state_count: u64,
    frame_count: u64,
    list: Vec<MachineStep>,
}

impl Model for Machine {
    ghost Value = { MachineValue };

    ghost view = { λ m. record { states = m.state_count; frames = m.frame_count; steps = m.list.items } };

    ghost invariant = { λ m. All (IsStepWithin m.state_count m.frame_count) m.list.items };
}

impl Machine {
    /// A machine of this many states and frames, with no steps.
    pub fn new(alloc: Global, states: u64, frames: u64) -> Machine
        ensures { result ≡ empty_machine states frames }
    {
        Machine::of_steps(states, frames, Vec::new(alloc))
    }

    /// A machine of this many states and frames, with these steps. Their numbers must be below those.
    pub fn of_steps(states: u64, frames: u64, steps: Vec<MachineStep>) -> Machine
        requires { All (IsStepWithin states frames) steps.items }
        ensures { result ≡ record { states = states; frames = frames; steps = steps.items } }
    {
        Machine {
            state_count: states,
            frame_count: frames,
            list: steps,
        }
    }

    /// The number of states.
    pub fn states(&self) -> u64
        ensures { result ≡ self.now.states }
    {
        self.state_count
    }

    /// The number of frames.
    pub fn frames(&self) -> u64
        ensures { result ≡ self.now.frames }
    {
        self.frame_count
    }

    /// The number of steps. The numbers of each are below the machine's.
    pub fn steps(&self) -> u64
        ensures count { result ≡ length self.now.steps }
        ensures within { All (IsStepWithin self.now.states self.now.frames) self.now.steps }
    {
        self.list.len() as u64
    }

    /// The step at this place, which must be below the number of steps.
    pub fn step(&self, step: StepNo) -> MachineStep
        requires { step.0 < length self.now.steps }
        ensures found { slice_get self.now.steps step.0 ≡ Some result }
        ensures within { IsStepWithin self.now.states self.now.frames result }
    {
        self.list[step.0 as usize]
    }

    fn add(&mut self, step: MachineStep) -> Result<StepNo, NoMemory>
        requires { IsStepWithin self.old.states self.old.frames step }
        ensures added { IfOk result (λ no. (no.0 ≡ length self.old.steps) × (self.new ≡ with_step self.old step)) }
        ensures refused { OnErr result (self.new ≡ self.old) }
    {
        let place = self.list.len() as u64;
        self.list.push(step)?;
        Ok(StepNo(place))
    }

    /// Adds a step that keeps the stack, and answers its place. A refusal changes nothing.
    pub fn add_flat(&mut self, from: StateNo, to: StateNo, cost: u64) -> Result<StepNo, NoMemory>
        requires from { from.0 < self.old.states }
        requires to { to.0 < self.old.states }
        ensures added { IfOk result (λ no. (no.0 ≡ length self.old.steps) × (self.new ≡ with_step self.old (flat_step from to cost))) }
        ensures refused { OnErr result (self.new ≡ self.old) }
    {
        self.add(MachineStep {
            kind: MachineKind::Flat,
            from,
            to,
            frame: FrameNo(0),
            cost,
        })
    }

    /// Adds a step that puts the frame on the stack, and answers its place. A refusal changes nothing.
    pub fn add_push(
        &mut self,
        from: StateNo,
        to: StateNo,
        frame: FrameNo,
        cost: u64,
    ) -> Result<StepNo, NoMemory>
        requires from { from.0 < self.old.states }
        requires to { to.0 < self.old.states }
        requires frame { frame.0 < self.old.frames }
        ensures added { IfOk result (λ no. (no.0 ≡ length self.old.steps) × (self.new ≡ with_step self.old (push_step from to frame cost))) }
        ensures refused { OnErr result (self.new ≡ self.old) }
    {
        self.add(MachineStep {
            kind: MachineKind::Push,
            from,
            to,
            frame,
            cost,
        })
    }

    /// Adds a step that takes the frame off the stack, and answers its place. A refusal changes nothing.
    pub fn add_pop(
        &mut self,
        from: StateNo,
        to: StateNo,
        frame: FrameNo,
        cost: u64,
    ) -> Result<StepNo, NoMemory>
        requires from { from.0 < self.old.states }
        requires to { to.0 < self.old.states }
        requires frame { frame.0 < self.old.frames }
        ensures added { IfOk result (λ no. (no.0 ≡ length self.old.steps) × (self.new ≡ with_step self.old (pop_step from to frame cost))) }
        ensures refused { OnErr result (self.new ≡ self.old) }
    {
        self.add(MachineStep {
            kind: MachineKind::Pop,
            from,
            to,
            frame,
            cost,
        })
    }
}

#[cfg(test)]
mod tests {
    use super::*;
    use std::alloc::AllocError;

    #[test]
    fn the_first_step_has_place_0(rt: HostRuntime) -> Result<(), NoMemory> {
        let mut machine = Machine::new(rt.alloc(), 2, 0);
        let step = machine.add_flat(StateNo(0), StateNo(1), 5)?;
        assert_eq!(rt; step, StepNo(0));
        assert_eq!(rt; machine.step(step).cost, 5);
        assert_eq!(rt;
            (machine.states(), machine.frames(), machine.steps()),
            (2, 0, 1)
        );
        Ok(())
    }

    #[test]
    fn a_machine_is_made_of_its_steps(rt: HostRuntime) -> Result<(), AllocError> {
        let step = MachineStep {
            kind: MachineKind::Pop,
            from: StateNo(1),
            to: StateNo(0),
            frame: FrameNo(2),
            cost: 7,
        };
        let machine = Machine::of_steps(2, 3, vec![in rt.alloc(); step]?);
        assert_eq!(rt; machine.step(StepNo(0)), step);
        assert_eq!(rt;
            (machine.states(), machine.frames(), machine.steps()),
            (2, 3, 1)
        );
        Ok(())
    }
}
