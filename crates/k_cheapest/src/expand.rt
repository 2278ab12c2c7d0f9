ghost use Rattle.std.specs.Prelude.{◌≡◌, ◌<◌, ◌↔◌, ℕ, IsTrue, IfOk, length, take};
ghost use Rattle.adapt_machine.specs.Walks.{IsStep};
ghost use Rattle.adapt_machine.specs.declared.MachineKind.TheVariants.{Flat, Pop};
ghost use Rattle.k_cheapest.specs.Choices.{BeginsAt, IsChoice, ChoosesAny, ChoosesNone, ChoosesFlat, ChoosesNest, ChoosesStep, ChoosesSome};
ghost use Rattle.k_cheapest.specs.Nests.{IsNest};
ghost use Rattle.k_cheapest.specs.Givens.{IsGiven};
ghost use Rattle.k_cheapest.specs.Items.{waiting_of, HasBefore, Adds};
ghost use Rattle.k_cheapest.specs.Settings.{steps_in, starts_in, IsSetting};
ghost use Rattle.k_cheapest.specs.Todos.{IsWeighed};

use crate::choice::Choice;
use crate::given::{Given, before};
use crate::item::Item;
use crate::queue::Queue;
use crate::setting::Setting;
use crate::todo::{Todo, goal, step};
use adapt_machine::{MachineKind, MachineStep};
use ml_base::{NoMemory, Root, StateNo, StepNo};

/// Offers the walks with these given steps and a choice of what stands before them.
pub fn put<'a>(
    setting: Setting<'_, 'a>,
    queue: &mut Queue<'a>,
    todo: &'a Todo<'a>,
    given: Given<'a>,
) -> Result<(), NoMemory>
    requires todo { IsWeighed (steps_in setting) (starts_in setting) todo.now }
    requires given { IsGiven (steps_in setting) given }
    ensures { IfOk result (λ _. Adds (steps_in setting.entry) (starts_in setting.entry)
        (HasBefore (steps_in setting.entry) (starts_in setting.entry) todo.now.form given.entry) (waiting_of queue.old) (waiting_of queue.new)) }
{
    let weight = todo.weight.plus(given.weight);
    queue.push(Item {
        weight,
        todo,
        given,
    })?;
    Ok(())
}

fn begins_at(starts: &[StateNo], root: Root, state: StateNo) -> bool
    ensures { IsTrue result ↔ BeginsAt starts.now root state }
{
    match root {
        Root::Request => starts.contains(&state),
        Root::Entry(entered) => entered == state,
    }
}

/// Offers the walks whose segment has no steps.
fn offer_empty<'a>(
    setting: Setting<'_, 'a>,
    queue: &mut Queue<'a>,
    choice: Choice<'a>,
) -> Result<(), NoMemory>
    requires choice { IsChoice (steps_in setting) (starts_in setting) choice }
    ensures { IfOk result (λ _. Adds (steps_in setting.entry) (starts_in setting.entry)
        (ChoosesNone (steps_in setting.entry) (starts_in setting.entry) choice.entry) (waiting_of queue.old) (waiting_of queue.new)) }
{
    if !begins_at(setting.starts, choice.root, choice.state) {
        return Ok(());
    }
    put(setting, queue, choice.rest, choice.given)?;
    Ok(())
}

/// Offers the walks whose segment ends with the flat step.
fn offer_flat<'a>(
    setting: Setting<'_, 'a>,
    queue: &mut Queue<'a>,
    choice: Choice<'a>,
    number: StepNo,
    taken: MachineStep,
) -> Result<(), NoMemory>
    requires setting { IsSetting setting }
    requires choice { IsChoice (steps_in setting) (starts_in setting) choice }
    requires step { IsStep (steps_in setting) Flat taken.from number.0 taken choice.state }
    requires below { number.0 < length (steps_in setting) }
    ensures { IfOk result (λ _. Adds (steps_in setting.entry) (starts_in setting.entry)
        (ChoosesFlat (steps_in setting.entry) (starts_in setting.entry) choice.entry number.0) (waiting_of queue.old) (waiting_of queue.new)) }
{
    let Some(todo) = goal(setting, choice.rest, choice.root, taken.from)? else {
        return Ok(());
    };
    let given = before(setting, choice.given, number)?;
    put(setting, queue, todo, given)?;
    Ok(())
}

/// Two steps that a nest may stand between.
#[derive(Clone, Copy)]
struct Nest {
    push: StepNo,
    pushed: MachineStep,
    pop: StepNo,
    popped: MachineStep,
}

/// Offers the walks whose segment ends with a nest between these steps.
fn offer_round<'a>(
    setting: Setting<'_, 'a>,
    queue: &mut Queue<'a>,
    choice: Choice<'a>,
    nest: Nest,
) -> Result<(), NoMemory>
    requires setting { IsSetting setting }
    requires choice { IsChoice (steps_in setting) (starts_in setting) choice }
    requires nest { IsNest (steps_in setting) nest choice.state }
    requires push { nest.push.0 < length (steps_in setting) }
    requires pop { nest.pop.0 < length (steps_in setting) }
    ensures { IfOk result (λ _. Adds (steps_in setting.entry) (starts_in setting.entry)
        (ChoosesNest (steps_in setting.entry) (starts_in setting.entry) choice.entry nest.push.0 nest.pop.0) (waiting_of queue.old) (waiting_of queue.new)) }
{
    let Some(under) = goal(setting, choice.rest, choice.root, nest.pushed.from)? else {
        return Ok(());
    };
    let pushing = step(setting, under, nest.push)?;
    let entry = Root::Entry(nest.pushed.to);
    let Some(todo) = goal(setting, pushing, entry, nest.popped.from)? else {
        return Ok(());
    };
    let given = before(setting, choice.given, nest.pop)?;
    put(setting, queue, todo, given)?;
    Ok(())
}

/// Offers the walks whose segment ends with a nest between the push and the pop, if they have the same frame.
fn offer_nest<'a>(
    setting: Setting<'_, 'a>,
    queue: &mut Queue<'a>,
    choice: Choice<'a>,
    push: StepNo,
    pop: StepNo,
    popped: MachineStep,
) -> Result<(), NoMemory>
    requires setting { IsSetting setting }
    requires choice { IsChoice (steps_in setting) (starts_in setting) choice }
    requires step { IsStep (steps_in setting) Pop popped.from pop.0 popped choice.state }
    requires push { push.0 < length (steps_in setting) }
    requires pop { pop.0 < length (steps_in setting) }
    ensures { IfOk result (λ _. Adds (steps_in setting.entry) (starts_in setting.entry)
        (ChoosesNest (steps_in setting.entry) (starts_in setting.entry) choice.entry push.0 pop.0) (waiting_of queue.old) (waiting_of queue.new)) }
{
    let pushed = setting.machine.step(push);
    if pushed.kind != MachineKind::Push {
        return Ok(());
    }
    if pushed.frame != popped.frame {
        return Ok(());
    }
    let nest = Nest {
        push,
        pushed,
        pop,
        popped,
    };
    offer_round(setting, queue, choice, nest)?;
    Ok(())
}

/// Offers the walks whose segment ends with a nest that the pop ends.
fn offer_nests<'a>(
    setting: Setting<'_, 'a>,
    queue: &mut Queue<'a>,
    choice: Choice<'a>,
    pop: StepNo,
    popped: MachineStep,
) -> Result<(), NoMemory>
    requires setting { IsSetting setting }
    requires choice { IsChoice (steps_in setting) (starts_in setting) choice }
    requires step { IsStep (steps_in setting) Pop popped.from pop.0 popped choice.state }
    requires pop { pop.0 < length (steps_in setting) }
    ensures { IfOk result (λ _. Adds (steps_in setting.entry) (starts_in setting.entry)
        (ChoosesStep (steps_in setting.entry) (starts_in setting.entry) choice.entry pop.0) (waiting_of queue.old) (waiting_of queue.new)) }
{
    let pushes = setting.ways.pushes(popped.frame);
    for number in 0..pushes.len() {
        offer_nest(setting, queue, choice, pushes[number], pop, popped)?;
    }
    Ok(())
}

/// Offers the walks whose segment ends with the step.
fn offer<'a>(
    setting: Setting<'_, 'a>,
    queue: &mut Queue<'a>,
    choice: Choice<'a>,
    number: StepNo,
) -> Result<(), NoMemory>
    requires setting { IsSetting setting }
    requires choice { IsChoice (steps_in setting) (starts_in setting) choice }
    requires below { number.0 < length (steps_in setting) }
    ensures { IfOk result (λ _. Adds (steps_in setting.entry) (starts_in setting.entry)
        (ChoosesStep (steps_in setting.entry) (starts_in setting.entry) choice.entry number.0) (waiting_of queue.old) (waiting_of queue.new)) }
{
    let taken = setting.machine.step(number);
    if taken.to != choice.state {
        return Ok(());
    }
    match taken.kind {
        MachineKind::Push => Ok(()),
        MachineKind::Pop => {
            offer_nests(setting, queue, choice, number, taken)?;
            Ok(())
        }
        MachineKind::Flat => {
            offer_flat(setting, queue, choice, number, taken)?;
            Ok(())
        }
    }
}

/// Offers the walks whose segment has a last step.
fn offer_all<'a>(
    setting: Setting<'_, 'a>,
    queue: &mut Queue<'a>,
    choice: Choice<'a>,
) -> Result<(), NoMemory>
    requires setting { IsSetting setting }
    requires choice { IsChoice (steps_in setting) (starts_in setting) choice }
    ensures { IfOk result (λ _. Adds (steps_in setting.entry) (starts_in setting.entry)
        (ChoosesSome (steps_in setting.entry) (starts_in setting.entry) choice.entry) (waiting_of queue.old) (waiting_of queue.new)) }
{
    let row = setting.ways.into(choice.state);
    for number in 0..row.len() {
        offer(setting, queue, choice, row[number])?;
    }
    Ok(())
}

/// Takes the walks apart by how their segment ends.
pub fn expand<'a>(
    setting: Setting<'_, 'a>,
    queue: &mut Queue<'a>,
    choice: Choice<'a>,
) -> Result<(), NoMemory>
    requires setting { IsSetting setting }
    requires choice { IsChoice (steps_in setting) (starts_in setting) choice }
    ensures { IfOk result (λ _. Adds (steps_in setting.entry) (starts_in setting.entry)
        (ChoosesAny (steps_in setting.entry) (starts_in setting.entry) choice.entry) (waiting_of queue.old) (waiting_of queue.new)) }
{
    offer_empty(setting, queue, choice)?;
    offer_all(setting, queue, choice)?;
    Ok(())
}
