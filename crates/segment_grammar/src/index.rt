ghost use Rattle.std.specs.Prelude.{◌<◌, IfOk};
ghost use Rattle.adapt_machine.specs.Machine.{MachineValue};
ghost use Rattle.segment_grammar.specs.Index.{IsFlatFrom, IsPushFrom, IsPushInto, IsPopAt, AreSteps, IsIndexOf};

use crate::frame_rows::FrameRows;
use crate::grouped::{Grouped, Key};
use adapt_machine::Machine;
use ml_base::{FrameNo, NoMemory, StateNo, StepNo};
use std::alloc::Global;
use std::marker::Model;

/// The steps of a machine by where they begin or end. A row is found in constant time.
#[derive(Drop)]
pub struct Index {
    count: u64,
    from_flats: Grouped,
    from_pushes: Grouped,
    into_pushes: Grouped,
    at_pops: FrameRows,
}

impl Model for Index {
    ghost use Rattle.segment_grammar.specs.Index.{IndexValue, HasRooms};

    ghost Value = { IndexValue };

    ghost view = { λ i. record { states = i.count; flats = i.from_flats; pushes = i.from_pushes; pushes_into = i.into_pushes; pops = i.at_pops } };

    ghost invariant = { λ i. HasRooms (record { states = i.count; flats = i.from_flats; pushes = i.from_pushes; pushes_into = i.into_pushes; pops = i.at_pops }) };
}

impl Index {
    /// The index of the machine.
    pub fn new(alloc: Global, machine: &Machine) -> Result<Index, NoMemory>
        ensures { IfOk result (λ i. IsIndexOf machine.now i) }
    {
        let count = machine.states();
        let from_flats = Grouped::new(alloc, machine, &Key::FlatFrom, count)?;
        let from_pushes = Grouped::new(alloc, machine, &Key::PushFrom, count)?;
        let into_pushes = Grouped::new(alloc, machine, &Key::PushInto, count)?;
        let at_pops = FrameRows::new(alloc, machine)?;
        Ok(Index {
            count,
            from_flats,
            from_pushes,
            into_pushes,
            at_pops,
        })
    }

    /// The flat steps from the state, rising.
    pub fn flats(&self, state: StateNo) -> &[StepNo]
        requires { state.0 < self.now.states }
        ensures { (machine : MachineValue) → IsIndexOf machine self.now → AreSteps machine (IsFlatFrom state) result.now }
    {
        self.from_flats.row(state.0)
    }

    /// The pushes from the state, rising.
    pub fn pushes(&self, state: StateNo) -> &[StepNo]
        requires { state.0 < self.now.states }
        ensures { (machine : MachineValue) → IsIndexOf machine self.now → AreSteps machine (IsPushFrom state) result.now }
    {
        self.from_pushes.row(state.0)
    }

    /// The pushes into the state, rising.
    pub fn pushes_into(&self, state: StateNo) -> &[StepNo]
        requires { state.0 < self.now.states }
        ensures { (machine : MachineValue) → IsIndexOf machine self.now → AreSteps machine (IsPushInto state) result.now }
    {
        self.into_pushes.row(state.0)
    }

    /// The pops of the frame from the state, rising.
    pub fn pops(&self, state: StateNo, frame: FrameNo) -> &[StepNo]
        ensures { (machine : MachineValue) → IsIndexOf machine self.now → AreSteps machine (IsPopAt state frame) result.now }
    {
        self.at_pops.row(state, frame)
    }
}
