ghost use Rattle.std.specs.Prelude.{◌≡◌, ◌<◌, ◌∷◌, ◌++◌, [], IfOk, length, map, slice_get, Some, true, false};
ghost use Rattle.std.specs.List.{All, Contains};
ghost use Rattle.ml_base.specs.declared.numbers.StateNo.{StateNo};
ghost use Rattle.ml_base.specs.declared.numbers.Root.TheVariants.{Entry};
ghost use Rattle.adapt_machine.specs.Machine.{MachineValue};
ghost use Rattle.segment_grammar.specs.Index.{IsIndexOf};
ghost use Rattle.segment_grammar.specs.Rows.{row_of};
ghost use Rattle.knuth_search.specs.Derived.{IsRootWithin};
ghost use Rattle.knuth_search.specs.Tables.{pot_of, IsKept, IsLeftBy, IsUnder, IsAt, ListsPairs, Files};
ghost use Rattle.adapt_machine.specs.declared.MachineKind.TheVariants.{Push, Pop};

use crate::derived::Derived;
use crate::marks::popped_states;
use adapt_machine::Machine;
use ml_base::{NoMemory, Root, StateNo};
use segment_grammar::{Index, Rows};
use std::alloc::Global;
use std::marker::Model;

/// The settled pairs with their weights and derivations. In rows stand those under an entered state, as far as a pop leaves them, and
/// those at a state that a push leaves, so that looking through a row reads memory in order.
#[derive(Drop)]
pub struct Table<'m, 'a> {
    machine: &'m Machine,
    index: &'m Index,
    starts: &'m [StateNo],
    items: Vec<Derived<'a>>,
    by_root: Rows<Derived<'a>>,
    by_state: Rows<Derived<'a>>,
    pops: Vec<bool>,
}

impl<'m, 'a> Model for Table<'m, 'a> {
    ghost use Rattle.std.specs.Prelude.{map};
    ghost use Rattle.knuth_search.specs.Tables.{Listed, pot_of, AreStored};

    ghost Value = { Listed };

    ghost view = { λ t. record { task = record { machine = t.machine.now; starts = t.starts.now }; pots = map pot_of t.items.items } };

    ghost invariant = { λ t. AreStored (record { machine = t.machine.now; starts = t.starts.now }) t.index.now t.items.items t.by_root t.by_state t.pops.items };
}

/// Files a pair in the row of its root, if that is an entered state and a pop may leave the pair.
fn file_inner<'a>(
    rows: &mut Rows<Derived<'a>>,
    pops: &[bool],
    item: Derived<'a>,
) -> Result<(), NoMemory>
    requires within { item.state.0 < length pops.now }
    requires root { IsRootWithin (length rows.old) item.root }
    ensures files { Files IsUnder item.entry rows.old rows.new }
    ensures here { IfOk result (λ _. slice_get pops.now item.entry.state.0 ≡ Some true → (x : StateNo) → item.entry.root ≡ Entry x → Contains (row_of rows.new x.0) item.entry) }
{
    let Root::Entry(entry) = item.root else {
        return Ok(());
    };
    if !pops[item.state.0 as usize] {
        return Ok(());
    }
    rows.add(entry.0, item)?;
    Ok(())
}

/// Files a pair in the row of its state, if a push leaves that.
fn file_waiting<'a>(
    rows: &mut Rows<Derived<'a>>,
    index: &Index,
    item: Derived<'a>,
) -> Result<(), NoMemory>
    requires within { item.state.0 < index.now.states }
    requires row { item.state.0 < length rows.old }
    ensures files { Files IsAt item.entry rows.old rows.new }
    ensures here { IfOk result (λ _. (machine : MachineValue) → IsIndexOf machine index.now → IsLeftBy machine.steps Push item.entry.state → Contains (row_of rows.new item.entry.state.0) item.entry) }
{
    if index.pushes(item.state).is_empty() {
        return Ok(());
    }
    rows.add(item.state.0, item)?;
    Ok(())
}

impl<'m, 'a> Table<'m, 'a> {
    /// A table without pairs.
    pub fn new(
        alloc: Global,
        machine: &'m Machine,
        index: &'m Index,
        starts: &'m [StateNo],
    ) -> Result<Table<'m, 'a>, NoMemory>
        requires index { IsIndexOf machine.now index.now }
        ensures task { IfOk result (λ t. t.task ≡ record { machine = machine.now; starts = starts.now }) }
        ensures pots { IfOk result (λ t. t.pots ≡ []) }
    {
        let by_root = Rows::new(alloc, machine.states());
        let by_state = Rows::new(alloc, machine.states());
        let pops = popped_states(alloc, machine)?;
        Ok(Table {
            machine,
            index,
            starts,
            items: Vec::new(alloc),
            by_root,
            by_state,
            pops,
        })
    }

    /// The pairs under an entered state that pops leave.
    pub fn under(&self, entry: StateNo) -> &[Derived<'a>]
        requires { entry.0 < self.now.task.machine.states }
        ensures { ListsPairs self.now.task self.now.pots Pop (IsUnder entry) result.now }
    {
        self.by_root.row(entry.0)
    }

    /// The pairs at a state, if a push leaves it.
    pub fn at(&self, state: StateNo) -> &[Derived<'a>]
        requires { state.0 < self.now.task.machine.states }
        ensures { ListsPairs self.now.task self.now.pots Push (IsAt state) result.now }
    {
        self.by_state.row(state.0)
    }

    /// Whether a pop may leave the state; false only where none does.
    pub fn may_pop(&self, state: StateNo) -> bool
        requires { state.0 < self.now.task.machine.states }
        ensures { result ≡ false → IsLeftBy self.now.task.machine.steps Pop state → ⊥ }
    {
        self.pops[state.0 as usize]
    }

    /// How many pairs there are.
    pub fn len(&self) -> u64
        ensures { result ≡ length self.now.pots }
    {
        self.items.len() as u64
    }

    /// The pair at this place, in the order in which they were settled.
    pub fn item(&self, place: u64) -> Derived<'a>
        requires { place < length self.now.pots }
        ensures { slice_get self.now.pots place ≡ Some (pot_of result) }
    {
        self.items[place as usize]
    }

    /// The pairs in the order in which they were settled.
    pub fn into_items(self) -> Vec<Derived<'a>>
        ensures pots { map pot_of result.items ≡ self.entry.pots }
        ensures kept { All (IsKept self.entry.task) result.items }
    {
        self.items
    }

    /// Puts the pair into the table, behind the others.
    pub fn put(&mut self, next: Derived<'a>) -> Result<(), NoMemory>
        requires { IsKept self.old.task next }
        ensures task { self.new.task ≡ self.old.task }
        ensures pots { IfOk result (λ _. self.new.pots ≡ self.old.pots ++ pot_of next.entry ∷ []) }
    {
        file_inner(&mut self.by_root, self.pops.as_slice(), next)?;
        file_waiting(&mut self.by_state, self.index, next)?;
        if self.items.push(next).is_err() {
            return Err(NoMemory);
        }
        Ok(())
    }
}
