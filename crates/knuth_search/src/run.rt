ghost use Rattle.std.specs.Prelude.{◌≡◌, ◌<◌, [], IfOk};
ghost use Rattle.std.specs.List.{Contains};
ghost use Rattle.ml_base.specs.declared.numbers.StateNo.{StateNo};
ghost use Rattle.ml_base.specs.declared.numbers.Root.TheVariants.{Request};
ghost use Rattle.segment_grammar.specs.Index.{IsIndexOf};
ghost use Rattle.segment_grammar.specs.Pots.{pot};
ghost use Rattle.knuth_search.specs.Following.{zero, Offers};
ghost use Rattle.knuth_search.specs.Overtaken.{IsClosed};
ghost use Rattle.knuth_search.specs.Searching.{Begins, Turns, IsComplete};
ghost use Rattle.knuth_search.specs.Settled.{IsSettledOf};
ghost use Rattle.knuth_search.specs.Tables.{pot_of, IsKept};

use crate::derived::Derived;
use crate::queue::Queue;
use crate::settle::{Setting, settle};
use crate::settled::{Settled, gather};
use crate::table::Table;
use crate::ways::Ways;
use adapt_machine::Machine;
use bumpalo::Bump;
use deriv_arena::root;
use ml_base::{NoMemory, Root, StateNo, Weight};
use root_order::Plan;
use segment_grammar::{Index, Pot};
use std::alloc::Global;

fn begin_at<'m, 'a>(
    arena: &'a Bump,
    queue: &mut Queue<'m, 'a>,
    start: StateNo,
) -> Result<(), NoMemory>
    requires start { Contains queue.old.task.starts start }
    requires within { start.0 < queue.old.task.machine.states }
    ensures task { queue.new.task ≡ queue.old.task }
    ensures offers { IfOk result (λ _. Offers (λ p. p ≡ pot Request start zero) queue.old queue.new) }
{
    let pot = Pot {
        root: Root::Request,
        state: start,
        weight: Weight::zero(),
    };
    if queue.covers(pot) {
        return Ok(());
    }
    let deriv = root(arena, start)?;
    queue.push(Derived {
        weight: pot.weight,
        root: pot.root,
        state: pot.state,
        deriv,
    })?;
    Ok(())
}

fn begin<'m, 'a>(
    arena: &'a Bump,
    queue: &mut Queue<'m, 'a>,
    starts: &[StateNo],
) -> Result<(), NoMemory>
    requires starts { queue.old.task.starts ≡ starts.now }
    requires within { (a : StateNo) → Contains starts.now a → a.0 < queue.old.task.machine.states }
    ensures task { queue.new.task ≡ queue.old.task }
    ensures offers { IfOk result (λ _. Offers (λ p. Begins starts.now p) queue.old queue.new) }
{
    for number in 0..starts.len() {
        begin_at(arena, queue, starts[number])?;
    }
    Ok(())
}

/// Settles the pair, unless it was offered at less.
fn turn<'m, 'a>(
    setting: Setting<'m, 'a>,
    table: &mut Table<'m, 'a>,
    queue: &mut Queue<'m, 'a>,
    ways: &mut Ways,
    next: Derived<'a>,
) -> Result<(), NoMemory>
    requires table { table.old.task ≡ queue.old.task }
    requires machine { queue.old.task.machine ≡ setting.machine.now }
    requires index { IsIndexOf setting.machine.now setting.index.now }
    requires kept { IsKept queue.old.task next }
    requires closed { IsClosed setting.machine.now.steps table.old.pots queue.old }
    ensures table_task { table.new.task ≡ table.old.task }
    ensures queue_task { queue.new.task ≡ queue.old.task }
    ensures turns { IfOk result (λ _. Turns setting.entry.machine.now.steps table.old.pots queue.old (pot_of next.entry) table.new.pots queue.new) }
{
    if queue.beats(next.pot()) {
        return Ok(());
    }
    table.put(next)?;
    settle(setting, table, queue, ways, next)?;
    Ok(())
}

/// The reached pairs in a table, each with its least weight and a derivation.
fn search_table<'m, 'a>(
    alloc: Global,
    machine: &'m Machine,
    index: &'m Index,
    starts: &'m [StateNo],
    arena: &'a Bump,
) -> Result<Table<'m, 'a>, NoMemory>
    requires index { IsIndexOf machine.now index.now }
    requires starts { (a : StateNo) → Contains starts.now a → a.0 < machine.now.states }
    ensures task { IfOk result (λ t. t.task ≡ record { machine = machine.now; starts = starts.now }) }
    ensures complete { IfOk result (λ t. IsComplete machine.now.steps starts.now t.pots) }
{
    let setting = Setting {
        machine,
        index,
        arena,
    };
    let mut table = Table::new(alloc, machine, index, starts)?;
    let plan = Plan::new(alloc, machine)?;
    let mut queue = Queue::new(alloc, machine, starts, plan)?;
    let mut ways = Ways::new(alloc);
    begin(arena, &mut queue, starts)?;
    for _ in 0..u64::MAX {
        let Some(next) = queue.pop() else {
            return Ok(table);
        };
        turn(setting, &mut table, &mut queue, &mut ways, next)?;
    }
    Err(NoMemory)
}

/// The reached pairs of the machine, each with its least weight and a derivation of it, which lies in the arena.
pub fn search<'a>(
    alloc: Global,
    machine: &Machine,
    index: &Index,
    starts: &[StateNo],
    arena: &'a Bump,
) -> Result<Settled<'a>, NoMemory>
    requires index { IsIndexOf machine.now index.now }
    requires starts { (a : StateNo) → Contains starts.now a → a.0 < machine.now.states }
    ensures { IfOk result (λ s. IsSettledOf machine.now starts.now s) }
{
    let table = search_table(alloc, machine, index, starts, arena)?;
    let settled = gather(alloc, table)?;
    Ok(settled)
}
