ghost use Rattle.std.specs.Prelude.{◌≡◌, ◌+◌, ◌<◌, ◌≤◌, ◌^◌, [], IfOk, IfSome, IfNone, length};
ghost use Rattle.std.specs.List.{Contains};
ghost use Rattle.ml_base.specs.declared.numbers.StateNo.{StateNo};
ghost use Rattle.ml_base.specs.declared.numbers.Root.TheVariants.{Request};
ghost use Rattle.segment_grammar.specs.Index.{IsIndexOf};
ghost use Rattle.segment_grammar.specs.Reached.{IsSegmentUnder};
ghost use Rattle.knuth_search.specs.Settled.{ArePotentials};
ghost use Rattle.k_cheapest.specs.Givens.{given_steps, IsGiven};
ghost use Rattle.k_cheapest.specs.Items.{waiting_of, IsItem, Has, Adds};
ghost use Rattle.k_cheapest.specs.KLists.{IsKList, IsWalk};
ghost use Rattle.k_cheapest.specs.Searching.{Searches, IsNext};
ghost use Rattle.k_cheapest.specs.Settings.{steps_in, starts_in, targets_in, IsSetting};

use crate::choice::Choice;
use crate::expand::{expand, put};
use crate::found::{KFound, KWalkList};
use crate::given::{Given, before, nothing};
use crate::item::Item;
use crate::listing::list;
use crate::queue::Queue;
use crate::setting::Setting;
use crate::todo::{TodoForm, done, goal};
use crate::ways::Ways;
use adapt_machine::Machine;
use bumpalo::Bump;
use knuth_search::search;
use ml_base::{KEnd, NoMemory, Root, StateNo, Weight};
use segment_grammar::{Index, Potentials};
use std::alloc::Global;

/// Takes one thing off what stands before the given steps, of which there is one.
fn advance<'a>(
    setting: Setting<'_, 'a>,
    queue: &mut Queue<'a>,
    item: Item<'a>,
) -> Result<(), NoMemory>
    requires setting { IsSetting setting }
    requires item { IsItem (steps_in setting) (starts_in setting) item }
    requires some { item.todo.now.form ≡ TodoForm.Done → ⊥ }
    ensures { IfOk result (λ _. Adds (steps_in setting.entry) (starts_in setting.entry)
        (Has (steps_in setting.entry) (starts_in setting.entry) item.entry) (waiting_of queue.old) (waiting_of queue.new)) }
{
    match item.todo.form {
        TodoForm::Done => Ok(()),
        TodoForm::Step { rest, step } => {
            let given = before(setting, item.given, step)?;
            put(setting, queue, rest, given)?;
            Ok(())
        }
        TodoForm::Goal { rest, root, state } => {
            let given = item.given;
            let choice = Choice {
                rest,
                root,
                state,
                given,
            };
            expand(setting, queue, choice)?;
            Ok(())
        }
    }
}

/// Takes the lightest walks that wait a step further, or lists the only one of them.
fn step_further<'a>(
    alloc: Global,
    setting: Setting<'_, 'a>,
    queue: &mut Queue<'a>,
    walks: &mut KWalkList,
    item: Item<'a>,
) -> Result<(), NoMemory>
    requires setting { IsSetting setting }
    requires limit { setting.limit < 2 ^ 40 }
    requires next { IsNext setting walks.old item (waiting_of queue.old) }
    ensures searches { IfOk result (λ _. Searches setting.entry walks.new (waiting_of queue.new)) }
    ensures one { IfOk result (λ _. length walks.new ≤ length walks.old + 1) }
{
    if item.todo.form.is_done() {
        list(alloc, walks, item)?;
        return Ok(());
    }
    advance(setting, queue, item)?;
    Ok(())
}

/// Takes the lightest walks that wait a step further, or says why no more are listed.
fn turn<'a>(
    alloc: Global,
    setting: Setting<'_, 'a>,
    queue: &mut Queue<'a>,
    walks: &mut KWalkList,
    k: u32,
) -> Result<Option<KEnd>, NoMemory>
    requires setting { IsSetting setting }
    requires limit { setting.limit < 2 ^ 40 }
    requires searches { Searches setting walks.old (waiting_of queue.old) }
    requires few { length walks.old ≤ k }
    ensures searches { IfOk result (λ o. IfNone o (Searches setting.entry walks.new (waiting_of queue.new))) }
    ensures few { IfOk result (λ o. IfNone o (length walks.new ≤ k)) }
    ensures ended { IfOk result (λ o. IfSome o (λ end. IsKList (steps_in setting.entry) (starts_in setting.entry) (targets_in setting.entry) k setting.entry.limit walks.new end)) }
{
    if walks.len() == k as u64 {
        return Ok(Some(KEnd::Enough));
    }
    let Some(item) = queue.pop()? else {
        return Ok(Some(KEnd::NoMore));
    };
    let Weight::Known { cost, hops } = item.weight else {
        return Ok(Some(KEnd::Past));
    };
    if hops > setting.limit {
        return Ok(Some(KEnd::Long { cost, hops }));
    }
    step_further(alloc, setting, queue, walks, item)?;
    Ok(None)
}

/// The walks to a target.
fn begin_at<'a>(
    setting: Setting<'_, 'a>,
    queue: &mut Queue<'a>,
    none: Given<'a>,
    target: StateNo,
) -> Result<(), NoMemory>
    requires setting { IsSetting setting }
    requires none { given_steps none ≡ [] }
    requires given { IsGiven (steps_in setting) none }
    ensures { IfOk result (λ _. Adds (steps_in setting.entry) (starts_in setting.entry)
        (λ ks. IsSegmentUnder (steps_in setting.entry) (starts_in setting.entry) Request ks target) (waiting_of queue.old) (waiting_of queue.new)) }
{
    let nothing = done(setting.arena)?;
    let Some(todo) = goal(setting, nothing, Root::Request, target)? else {
        return Ok(());
    };
    put(setting, queue, todo, none)?;
    Ok(())
}

/// The walks to each target.
fn begin<'a>(
    setting: Setting<'_, 'a>,
    queue: &mut Queue<'a>,
    none: Given<'a>,
) -> Result<(), NoMemory>
    requires setting { IsSetting setting }
    requires none { given_steps none ≡ [] }
    requires given { IsGiven (steps_in setting) none }
    ensures { IfOk result (λ _. Adds (steps_in setting.entry) (starts_in setting.entry)
        (IsWalk (steps_in setting.entry) (starts_in setting.entry) (targets_in setting.entry)) (waiting_of queue.old) (waiting_of queue.new)) }
{
    let targets = setting.targets;
    for number in 0..targets.len() {
        begin_at(setting, queue, none, targets[number])?;
    }
    Ok(())
}

/// Lists walks, the lightest first, until there are enough or no more.
fn turns<'a>(
    alloc: Global,
    setting: Setting<'_, 'a>,
    queue: &mut Queue<'a>,
    k: u32,
) -> Result<KFound, NoMemory>
    requires setting { IsSetting setting }
    requires limit { setting.limit < 2 ^ 40 }
    requires searches { Searches setting [] (waiting_of queue.old) }
    ensures { IfOk result (λ f. IsKList (steps_in setting.entry) (starts_in setting.entry) (targets_in setting.entry) k setting.entry.limit f.walks f.end) }
{
    let mut walks = KWalkList::new(alloc);
    for _ in 0..u64::MAX {
        if let Some(end) = turn(alloc, setting, queue, &mut walks, k)? {
            return Ok(KFound { walks, end });
        }
    }
    Err(NoMemory)
}

/// The walks that are asked for.
fn find<'a>(alloc: Global, setting: Setting<'_, 'a>, k: u32) -> Result<KFound, NoMemory>
    requires setting { IsSetting setting }
    requires limit { setting.limit < 2 ^ 40 }
    ensures { IfOk result (λ f. IsKList (steps_in setting.entry) (starts_in setting.entry) (targets_in setting.entry) k setting.entry.limit f.walks f.end) }
{
    let none = nothing(setting.arena)?;
    let mut queue = Queue::new(alloc);
    begin(setting, &mut queue, none)?;
    turns(alloc, setting, &mut queue, k)
}

/// The least weight of each reached pair.
fn least_weights(
    alloc: Global,
    machine: &Machine,
    index: &Index,
    starts: &[StateNo],
) -> Result<Potentials, NoMemory>
    requires index { IsIndexOf machine.now index.now }
    requires starts { (a : StateNo) → Contains starts.now a → a.0 < machine.now.states }
    ensures { IfOk result (λ pots. ArePotentials machine.now.steps starts.now pots) }
{
    let arena = Bump::new(alloc);
    let settled = search(alloc, machine, index, starts, &arena)?;
    Ok(settled.into_potentials())
}

/// The `k` cheapest walks from a start to a target, and why there are no more of them. None is listed that costs 2^64 or more, or that
/// has more hops than the limit.
pub fn k_best(
    alloc: Global,
    machine: &Machine,
    index: &Index,
    starts: &[StateNo],
    targets: &[StateNo],
    k: u32,
    limit: u64,
) -> Result<KFound, NoMemory>
    requires index { IsIndexOf machine.now index.now }
    requires starts { (a : StateNo) → Contains starts.now a → a.0 < machine.now.states }
    requires limit { limit < 2 ^ 40 }
    ensures { IfOk result (λ f. IsKList machine.now.steps starts.now targets.now k limit f.walks f.end) }
{
    let potentials = least_weights(alloc, machine, index, starts)?;
    let ways = Ways::new(alloc, machine)?;
    let arena = Bump::new(alloc);
    let setting = Setting {
        machine,
        starts,
        targets,
        limit,
        potentials: &potentials,
        ways: &ways,
        arena: &arena,
    };
    let found = find(alloc, setting, k)?;
    Ok(found)
}
