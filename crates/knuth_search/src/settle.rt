ghost use Rattle.std.specs.Prelude.{◌≡◌, ◌⊎◌, IfOk, List, Some, slice_get};
ghost use Rattle.ml_base.specs.declared.numbers.Root.TheVariants.{Entry};
ghost use Rattle.segment_grammar.specs.Index.{IsFlatFrom, IsPushFrom, IsIndexOf};
ghost use Rattle.adapt_machine.specs.declared.MachineStep.{MachineStep};
ghost use Rattle.adapt_machine.specs.declared.MachineKind.TheVariants.{Push};
ghost use Rattle.knuth_search.specs.Following.{ArePopsOf, stepped, IsStepOf, Enters, Meets, FlatBy, OpenedBy, NestedBy, Closes, PushedBy, Extends, Fills, SomeStep, SomePot, Offers};
ghost use Rattle.knuth_search.specs.Overtaken.{AreNested, IsClosedBefore};
ghost use Rattle.knuth_search.specs.Tables.{pot_of, IsKept};

use crate::derived::Derived;
use crate::queue::Queue;
use crate::table::Table;
use crate::ways::Ways;
use adapt_machine::{Machine, MachineStep};
use bumpalo::Bump;
use deriv_arena::{flat, nest, root};
use ml_base::{NoMemory, Root, StateNo, StepNo, Weight};
use segment_grammar::{Index, Pot};

/// What a search works on.
#[derive(Clone, Copy)]
pub struct Setting<'m, 'a> {
    pub machine: &'m Machine,
    pub index: &'m Index,
    pub arena: &'a Bump,
}

/// The weight with one more step.
pub fn stepped(weight: Weight, step: MachineStep) -> Weight
    ensures { result ≡ stepped weight step }
{
    weight.plus(Weight::known(step.cost, 1))
}

/// Offers what a flat step makes of the pair.
fn offer_flat<'m, 'a>(
    setting: Setting<'m, 'a>,
    queue: &mut Queue<'m, 'a>,
    prev: Derived<'a>,
    number: StepNo,
) -> Result<(), NoMemory>
    requires machine { queue.old.task.machine ≡ setting.machine.now }
    requires kept { IsKept queue.old.task prev }
    requires flat { IsStepOf setting.machine.now.steps (IsFlatFrom prev.state) number }
    ensures task { queue.new.task ≡ queue.old.task }
    ensures offers { IfOk result (λ _. Offers (FlatBy setting.entry.machine.now.steps (pot_of prev.entry) number) queue.old queue.new) }
{
    let step = setting.machine.step(number);
    let pot = Pot {
        root: prev.root,
        state: step.to,
        weight: stepped(prev.weight, step),
    };
    if queue.covers(pot) {
        return Ok(());
    }
    let deriv = flat(setting.arena, setting.machine, prev.deriv, number)?;
    queue.push(Derived {
        weight: pot.weight,
        root: pot.root,
        state: pot.state,
        deriv,
    })?;
    Ok(())
}

/// Offers what a nest makes of the pair: a push, an inner pair and a pop.
fn offer_nest<'m, 'a>(
    setting: Setting<'m, 'a>,
    queue: &mut Queue<'m, 'a>,
    prev: Derived<'a>,
    push: StepNo,
    inner: Derived<'a>,
    pop: StepNo,
) -> Result<(), NoMemory>
    requires machine { queue.old.task.machine ≡ setting.machine.now }
    requires kept { IsKept queue.old.task prev }
    requires inner { IsKept queue.old.task inner }
    requires meets { Meets setting.machine.now.steps (pot_of prev) push (pot_of inner) pop }
    ensures task { queue.new.task ≡ queue.old.task }
    ensures offers { IfOk result (λ _. Offers (NestedBy setting.entry.machine.now.steps (pot_of prev.entry) push (pot_of inner.entry) pop) queue.old queue.new) }
{
    let pushed = setting.machine.step(push);
    let popped = setting.machine.step(pop);
    let base = stepped(prev.weight, pushed).plus(inner.weight);
    let pot = Pot {
        root: prev.root,
        state: popped.to,
        weight: stepped(base, popped),
    };
    if queue.covers(pot) {
        return Ok(());
    }
    let deriv = nest(
        setting.arena,
        setting.machine,
        prev.deriv,
        push,
        inner.deriv,
        pop,
    )?;
    queue.push(Derived {
        weight: pot.weight,
        root: pot.root,
        state: pot.state,
        deriv,
    })?;
    Ok(())
}

/// Offers the state that a push enters as a root, at itself.
fn open<'m, 'a>(
    setting: Setting<'m, 'a>,
    queue: &mut Queue<'m, 'a>,
    prev: Derived<'a>,
    number: StepNo,
) -> Result<(), NoMemory>
    requires machine { queue.old.task.machine ≡ setting.machine.now }
    requires kept { IsKept queue.old.task prev }
    requires push { IsStepOf setting.machine.now.steps (IsPushFrom prev.state) number }
    ensures task { queue.new.task ≡ queue.old.task }
    ensures offers { IfOk result (λ _. Offers (OpenedBy setting.entry.machine.now.steps (pot_of prev.entry) number) queue.old queue.new) }
{
    let step = setting.machine.step(number);
    let pot = Pot {
        root: Root::Entry(step.to),
        state: step.to,
        weight: Weight::zero(),
    };
    if queue.covers(pot) {
        return Ok(());
    }
    let deriv = root(setting.arena, step.to)?;
    queue.push(Derived {
        weight: pot.weight,
        root: pot.root,
        state: pot.state,
        deriv,
    })?;
    Ok(())
}

/// Offers what each flat step makes of the pair.
fn flats<'m, 'a>(
    setting: Setting<'m, 'a>,
    queue: &mut Queue<'m, 'a>,
    prev: Derived<'a>,
) -> Result<(), NoMemory>
    requires machine { queue.old.task.machine ≡ setting.machine.now }
    requires index { IsIndexOf setting.machine.now setting.index.now }
    requires kept { IsKept queue.old.task prev }
    ensures task { queue.new.task ≡ queue.old.task }
    ensures offers { IfOk result (λ _. Offers (λ p. SomeStep (λ k p. FlatBy setting.entry.machine.now.steps (pot_of prev.entry) k p) p) queue.old queue.new) }
{
    let numbers = setting.index.flats(prev.state);
    for number in 0..numbers.len() {
        offer_flat(setting, queue, prev, numbers[number])?;
    }
    Ok(())
}

/// Offers what each pop that matches the push makes of the two pairs.
fn close<'m, 'a>(
    setting: Setting<'m, 'a>,
    queue: &mut Queue<'m, 'a>,
    prev: Derived<'a>,
    push: StepNo,
    inner: Derived<'a>,
    pops: &[StepNo],
) -> Result<(), NoMemory>
    requires machine { queue.old.task.machine ≡ setting.machine.now }
    requires kept { IsKept queue.old.task prev }
    requires inner { IsKept queue.old.task inner }
    requires enters { Enters setting.machine.now.steps (pot_of prev) push (pot_of inner) }
    requires pops { ArePopsOf setting.machine.now push inner.state pops.now }
    ensures task { queue.new.task ≡ queue.old.task }
    ensures offers { IfOk result (λ _. Offers (λ p. Closes setting.entry.machine.now.steps (pot_of prev.entry) push (pot_of inner.entry) p) queue.old queue.new) }
{
    for number in 0..pops.len() {
        offer_nest(setting, queue, prev, push, inner, pops[number])?;
    }
    Ok(())
}

/// Offers what the pair, the push and each settled inner pair give.
fn nests<'m, 'a>(
    setting: Setting<'m, 'a>,
    table: &Table<'m, 'a>,
    queue: &mut Queue<'m, 'a>,
    prev: Derived<'a>,
    number: StepNo,
) -> Result<(), NoMemory>
    requires table { table.now.task ≡ queue.old.task }
    requires machine { queue.old.task.machine ≡ setting.machine.now }
    requires index { IsIndexOf setting.machine.now setting.index.now }
    requires kept { IsKept queue.old.task prev }
    requires push { IsStepOf setting.machine.now.steps (IsPushFrom prev.state) number }
    ensures task { queue.new.task ≡ queue.old.task }
    ensures offers { IfOk result (λ _. Offers (λ p. SomePot table.now.pots (λ inner p. Closes setting.entry.machine.now.steps (pot_of prev.entry) number inner p) p) queue.old queue.new) }
{
    let pushed = setting.machine.step(number);
    let inners = table.under(pushed.to);
    for place in 0..inners.len() {
        let inner = inners[place];
        let pops = setting.index.pops(inner.state, pushed.frame);
        close(setting, queue, prev, number, inner, pops)?;
    }
    Ok(())
}

/// Offers what the pair, the push and each settled inner pair give, unless an earlier pair led the same way at no more: what it gave
/// was offered.
fn nests_once<'m, 'a>(
    setting: Setting<'m, 'a>,
    table: &Table<'m, 'a>,
    queue: &mut Queue<'m, 'a>,
    ways: &mut Ways,
    prev: Derived<'a>,
    number: StepNo,
) -> Result<(), NoMemory>
    requires table { table.now.task ≡ queue.old.task }
    requires machine { queue.old.task.machine ≡ setting.machine.now }
    requires index { IsIndexOf setting.machine.now setting.index.now }
    requires kept { IsKept queue.old.task prev }
    requires push { IsStepOf setting.machine.now.steps (IsPushFrom prev.state) number }
    requires nested { AreNested setting.machine.now.steps table.now.pots queue.old }
    ensures task { queue.new.task ≡ queue.old.task }
    ensures offers { IfOk result (λ _. Offers (λ p. SomePot table.now.pots (λ inner p. Closes setting.entry.machine.now.steps (pot_of prev.entry) number inner p) p) queue.old queue.new) }
{
    let pushed = setting.machine.step(number);
    if ways.overtake(setting.machine, table, prev, pushed) {
        return Ok(());
    }
    nests(setting, table, queue, prev, number)?;
    ways.note(table, prev.root, number, pushed)?;
    Ok(())
}

/// Offers what follows from the pair by the push.
fn push_by<'m, 'a>(
    setting: Setting<'m, 'a>,
    table: &Table<'m, 'a>,
    queue: &mut Queue<'m, 'a>,
    ways: &mut Ways,
    prev: Derived<'a>,
    number: StepNo,
) -> Result<(), NoMemory>
    requires table { table.now.task ≡ queue.old.task }
    requires nested { AreNested setting.machine.now.steps table.now.pots queue.old }
    requires machine { queue.old.task.machine ≡ setting.machine.now }
    requires index { IsIndexOf setting.machine.now setting.index.now }
    requires kept { IsKept queue.old.task prev }
    requires push { IsStepOf setting.machine.now.steps (IsPushFrom prev.state) number }
    ensures task { queue.new.task ≡ queue.old.task }
    ensures offers { IfOk result (λ _. Offers (PushedBy setting.entry.machine.now.steps table.now.pots (pot_of prev.entry) number) queue.old queue.new) }
{
    open(setting, queue, prev, number)?;
    nests_once(setting, table, queue, ways, prev, number)?;
    Ok(())
}

/// Offers what follows from the pair by each push.
fn pushes<'m, 'a>(
    setting: Setting<'m, 'a>,
    table: &Table<'m, 'a>,
    queue: &mut Queue<'m, 'a>,
    ways: &mut Ways,
    prev: Derived<'a>,
) -> Result<(), NoMemory>
    requires table { table.now.task ≡ queue.old.task }
    requires nested { AreNested setting.machine.now.steps table.now.pots queue.old }
    requires machine { queue.old.task.machine ≡ setting.machine.now }
    requires index { IsIndexOf setting.machine.now setting.index.now }
    requires kept { IsKept queue.old.task prev }
    ensures task { queue.new.task ≡ queue.old.task }
    ensures offers { IfOk result (λ _. Offers (λ p. SomeStep (λ k p. PushedBy setting.entry.machine.now.steps table.now.pots (pot_of prev.entry) k p) p) queue.old queue.new) }
{
    let numbers = setting.index.pushes(prev.state);
    for number in 0..numbers.len() {
        push_by(setting, table, queue, ways, prev, numbers[number])?;
    }
    Ok(())
}

/// Offers what each pair that waits at the push gives with the inner pair.
fn fill_by<'m, 'a>(
    setting: Setting<'m, 'a>,
    table: &Table<'m, 'a>,
    queue: &mut Queue<'m, 'a>,
    inner: Derived<'a>,
    number: StepNo,
) -> Result<(), NoMemory>
    requires table { table.now.task ≡ queue.old.task }
    requires machine { queue.old.task.machine ≡ setting.machine.now }
    requires index { IsIndexOf setting.machine.now setting.index.now }
    requires inner { IsKept queue.old.task inner }
    requires into { (t : MachineStep) × (slice_get setting.machine.now.steps number.0 ≡ Some t) × (t.kind ≡ Push) × (inner.root ≡ Entry t.to) }
    ensures task { queue.new.task ≡ queue.old.task }
    ensures offers { IfOk result (λ _. Offers (λ p. SomePot table.now.pots (λ prev p. Closes setting.entry.machine.now.steps prev number (pot_of inner.entry) p) p) queue.old queue.new) }
{
    let pushed = setting.machine.step(number);
    let waiting = table.at(pushed.from);
    if waiting.is_empty() {
        return Ok(());
    }
    let pops = setting.index.pops(inner.state, pushed.frame);
    for place in 0..waiting.len() {
        close(setting, queue, waiting[place], number, inner, pops)?;
    }
    Ok(())
}

/// Offers what the pair gives as the inner part of a nest over each push into its root.
fn fill_under<'m, 'a>(
    setting: Setting<'m, 'a>,
    table: &Table<'m, 'a>,
    queue: &mut Queue<'m, 'a>,
    inner: Derived<'a>,
    entry: StateNo,
) -> Result<(), NoMemory>
    requires table { table.now.task ≡ queue.old.task }
    requires machine { queue.old.task.machine ≡ setting.machine.now }
    requires index { IsIndexOf setting.machine.now setting.index.now }
    requires inner { IsKept queue.old.task inner }
    requires root { inner.root ≡ Entry entry }
    ensures task { queue.new.task ≡ queue.old.task }
    ensures offers { IfOk result (λ _. Offers (λ p. Fills setting.entry.machine.now.steps table.now.pots (pot_of inner.entry) p) queue.old queue.new) }
{
    let numbers = setting.index.pushes_into(entry);
    for number in 0..numbers.len() {
        fill_by(setting, table, queue, inner, numbers[number])?;
    }
    Ok(())
}

/// Offers what the pair gives as the inner part of a nest.
fn fill<'m, 'a>(
    setting: Setting<'m, 'a>,
    table: &Table<'m, 'a>,
    queue: &mut Queue<'m, 'a>,
    inner: Derived<'a>,
) -> Result<(), NoMemory>
    requires table { table.now.task ≡ queue.old.task }
    requires machine { queue.old.task.machine ≡ setting.machine.now }
    requires index { IsIndexOf setting.machine.now setting.index.now }
    requires inner { IsKept queue.old.task inner }
    ensures task { queue.new.task ≡ queue.old.task }
    ensures offers { IfOk result (λ _. Offers (λ p. Fills setting.entry.machine.now.steps table.now.pots (pot_of inner.entry) p) queue.old queue.new) }
{
    let Root::Entry(entry) = inner.root else {
        return Ok(());
    };
    if !table.may_pop(inner.state) {
        return Ok(());
    }
    fill_under(setting, table, queue, inner, entry)?;
    Ok(())
}

/// Offers what follows from a settled pair, the last of the table: as the inner part of a nest first, so that all nests of the earlier
/// pairs are offered when its own pushes are followed.
pub fn settle<'m, 'a>(
    setting: Setting<'m, 'a>,
    table: &Table<'m, 'a>,
    queue: &mut Queue<'m, 'a>,
    ways: &mut Ways,
    next: Derived<'a>,
) -> Result<(), NoMemory>
    requires table { table.now.task ≡ queue.old.task }
    requires machine { queue.old.task.machine ≡ setting.machine.now }
    requires index { IsIndexOf setting.machine.now setting.index.now }
    requires kept { IsKept queue.old.task next }
    requires closed { IsClosedBefore setting.machine.now.steps table.now.pots (pot_of next) queue.old }
    ensures task { queue.new.task ≡ queue.old.task }
    ensures offers { IfOk result (λ _. Offers (λ p. Extends setting.entry.machine.now.steps table.now.pots (pot_of next.entry) p ⊎ Fills setting.entry.machine.now.steps table.now.pots (pot_of next.entry) p) queue.old queue.new) }
{
    fill(setting, table, queue, next)?;
    flats(setting, queue, next)?;
    pushes(setting, table, queue, ways, next)?;
    Ok(())
}
