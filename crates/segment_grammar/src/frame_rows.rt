ghost use Rattle.std.specs.Prelude.{◌≡◌, ◌+◌, ◌<◌, ℕ, length, IfOk, Some};
ghost use Rattle.std.specs.HashMap.{hash_map_len};
ghost use Rattle.ml_base.specs.declared.numbers.StateNo.{StateNo};
ghost use Rattle.ml_base.specs.declared.numbers.FrameNo.{FrameNo};
ghost use Rattle.segment_grammar.specs.Index.{AreSteps, IsPopAt, AreWithin};
ghost use Rattle.segment_grammar.specs.FrameRows.{numbered, frame_row, IsNumbering, ArePopsNumbered};

use crate::grouped::{Grouped, Key, is_flat};
use adapt_machine::{Machine, MachineKind};
use ml_base::{FrameNo, NoMemory, StateNo, StepNo};
use std::alloc::Global;
use std::collections::HashMap;
use std::marker::Model;

/// The pops of a machine by state and frame. Contracts see the row of each pair, empty where no pop has it.
#[derive(Drop)]
pub struct FrameRows {
    numbers: HashMap<(u64, u64), u64>,
    rows: Grouped,
}

impl Model for FrameRows {
    ghost use Rattle.std.specs.Prelude.{length};
    ghost use Rattle.segment_grammar.specs.FrameRows.{FrameRowsValue, IsNumbering};

    ghost Value = { FrameRowsValue };

    ghost view = { λ r. record { numbers = r.numbers.entries; rows = r.rows } };

    ghost invariant = { λ r. IsNumbering r.numbers.entries (length r.rows) };
}

/// Gives the pair the next number, where it has none.
fn number(numbers: &mut HashMap<(u64, u64), u64>, state: u64, frame: u64) -> Result<(), NoMemory>
    requires numbering { IsNumbering numbers.old.entries (hash_map_len numbers.old) }
    ensures numbering { IfOk result (λ _. IsNumbering numbers.new.entries (hash_map_len numbers.new)) }
    ensures kept { IfOk result (λ _. (a b i : ℕ) → numbered numbers.old.entries a b ≡ Some i → numbered numbers.new.entries a b ≡ Some i) }
    ensures found { IfOk result (λ _. (i : ℕ) × (numbered numbers.new.entries state frame ≡ Some i)) }
{
    if numbers.contains_key(&(state, frame)) {
        return Ok(());
    }
    let number = numbers.len() as u64;
    match numbers.insert((state, frame), number) {
        Ok(_) => Ok(()),
        Err(_) => Err(NoMemory),
    }
}

/// Numbers the pair of the step, if it is a pop.
fn number_step(
    numbers: &mut HashMap<(u64, u64), u64>,
    machine: &Machine,
    step: u64,
) -> Result<(), NoMemory>
    requires below { step < length machine.now.steps }
    requires numbered { ArePopsNumbered machine.now.steps step numbers.old.entries (hash_map_len numbers.old) }
    ensures numbered { IfOk result (λ _. ArePopsNumbered machine.now.steps (step + 1) numbers.new.entries (hash_map_len numbers.new)) }
{
    let step = machine.step(StepNo(step));
    if step.kind != MachineKind::Pop {
        return Ok(());
    }
    number(numbers, step.from.0, step.frame.0)?;
    Ok(())
}

/// The numbers of the pairs of the machine's pops.
fn numbers_of(alloc: Global, machine: &Machine) -> Result<HashMap<(u64, u64), u64>, NoMemory>
    ensures numbered { IfOk result (λ m. ArePopsNumbered machine.now.steps (length machine.now.steps) m.entries (hash_map_len m)) }
    ensures within { IfOk result (λ _. AreWithin machine.now.steps (length machine.now.steps) machine.now.states) }
{
    let mut numbers = HashMap::new(alloc);
    let steps = machine.steps();
    if is_flat(machine) {
        return Ok(numbers);
    }
    for step in 0..steps {
        number_step(&mut numbers, machine, step)?;
    }
    Ok(numbers)
}

impl FrameRows {
    /// The pops of the machine.
    pub fn new(alloc: Global, machine: &Machine) -> Result<FrameRows, NoMemory>
        ensures pops { IfOk result (λ r. (s : StateNo) (f : FrameNo) → AreSteps machine.now (IsPopAt s f) (frame_row r s.0 f.0)) }
        ensures within { IfOk result (λ _. AreWithin machine.now.steps (length machine.now.steps) machine.now.states) }
    {
        let numbers = numbers_of(alloc, machine)?;
        let count = numbers.len() as u64;
        let rows = Grouped::new(alloc, machine, &Key::PopAt(&numbers), count)?;
        Ok(FrameRows { numbers, rows })
    }

    /// The row of the state and the frame.
    pub fn row(&self, state: StateNo, frame: FrameNo) -> &[StepNo]
        ensures { result.now ≡ frame_row self.now state.0 frame.0 }
    {
        let Some(number) = self.numbers.get(&(state.0, frame.0)) else {
            return &[];
        };
        self.rows.row(*number)
    }
}
