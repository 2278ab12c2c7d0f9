ghost use Rattle.std.specs.Prelude.{◌≡◌, ◌<◌, ◌↔◌, ℕ, IsTrue, IfOk, IfSome, List, MatchOption, length};
ghost use Rattle.ml_base.specs.declared.numbers.StateNo.{StateNo};
ghost use Rattle.ml_base.specs.Weight.{cap};
ghost use Rattle.adapt_machine.specs.declared.MachineStep.{MachineStep};
ghost use Rattle.segment_grammar.specs.Reached.{IsReached};
ghost use Rattle.k_cheapest.specs.Todos.{IsWeighed};
ghost use Rattle.k_cheapest.specs.Settings.{steps_in, starts_in, IsSetting};

use crate::setting::Setting;
use bumpalo::Bump;
use ml_base::{NoMemory, Root, StateNo, StepNo, Weight};

/// What stands before the given steps of a set of walks: a list of steps and of segments to be chosen, the last first. It has the least
/// weight that they can have together.
#[derive(Clone, Copy)]
#[cycle(todo)]
pub struct Todo<'a> {
    pub weight: Weight,
    pub form: TodoForm<'a>,
}

#[derive(Clone, Copy)]
#[cycle(todo)]
pub enum TodoForm<'a> {
    /// Nothing.
    Done,
    /// `rest`, then any segment under the root to the state.
    Goal {
        rest: &'a Todo<'a>,
        root: Root,
        state: StateNo,
    },
    /// `rest`, then the step.
    Step {
        rest: &'a Todo<'a>,
        step: StepNo,
    },
}

impl<'a> TodoForm<'a> {
    pub fn is_done(&self) -> bool
        ensures { IsTrue result ↔ (self.now ≡ TodoForm.Done) }
    {
        matches!(self, TodoForm::Done)
    }
}

fn place<'a>(arena: &'a Bump, todo: Todo<'a>) -> Result<&'a Todo<'a>, NoMemory>
    ensures { IfOk result (λ t. t.now ≡ todo.entry) }
{
    match arena.try_alloc(todo) {
        Ok(place) => Ok(place),
        Err(_) => Err(NoMemory),
    }
}

/// Nothing stands before the given steps.
pub fn done<'a>(arena: &'a Bump) -> Result<&'a Todo<'a>, NoMemory>
    ensures form { IfOk result (λ t. t.now.form ≡ TodoForm.Done) }
    ensures weighed { IfOk result (λ t. (steps : List MachineStep) (starts : List StateNo) → IsWeighed steps starts t.now) }
{
    place(
        arena,
        Todo {
            weight: Weight::zero(),
            form: TodoForm::Done,
        },
    )
}

/// `rest`, then any segment under the root to the state, or None exactly where there is none.
pub fn goal<'a>(
    setting: Setting<'_, 'a>,
    rest: &'a Todo<'a>,
    root: Root,
    state: StateNo,
) -> Result<Option<&'a Todo<'a>>, NoMemory>
    requires setting { IsSetting setting }
    requires rest { IsWeighed (steps_in setting) (starts_in setting) rest.now }
    ensures none { IfOk result (λ o. MatchOption o (IsReached (steps_in setting.entry) (starts_in setting.entry) root state → ⊥) (λ t. IsReached (steps_in setting.entry) (starts_in setting.entry) root state)) }
    ensures form { IfOk result (λ o. IfSome o (λ t. t.now.form ≡ TodoForm.Goal rest.entry root state)) }
    ensures weighed { IfOk result (λ o. IfSome o (λ t. IsWeighed (steps_in setting.entry) (starts_in setting.entry) t.now)) }
{
    let Some(least) = setting.potentials.weight(root, state) else {
        return Ok(None);
    };
    let weight = rest.weight.plus(least);
    let form = TodoForm::Goal { rest, root, state };
    let goal = place(setting.arena, Todo { weight, form })?;
    Ok(Some(goal))
}

/// `rest`, then the step.
pub fn step<'a>(
    setting: Setting<'_, 'a>,
    rest: &'a Todo<'a>,
    step: StepNo,
) -> Result<&'a Todo<'a>, NoMemory>
    requires below { step.0 < length (steps_in setting) }
    requires rest { IsWeighed (steps_in setting) (starts_in setting) rest.now }
    ensures form { IfOk result (λ t. t.now.form ≡ TodoForm.Step rest.entry step) }
    ensures weighed { IfOk result (λ t. IsWeighed (steps_in setting.entry) (starts_in setting.entry) t.now) }
{
    let taken = setting.machine.step(step);
    let weight = rest.weight.plus(Weight::known(taken.cost, 1));
    let form = TodoForm::Step { rest, step };
    place(setting.arena, Todo { weight, form })
}
