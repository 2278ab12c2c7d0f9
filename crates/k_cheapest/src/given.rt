ghost use Rattle.std.specs.Prelude.{◌≡◌, ◌<◌, ◌∷◌, [], List, IfOk, length};
ghost use Rattle.adapt_machine.specs.declared.MachineStep.{MachineStep};
ghost use Rattle.k_cheapest.specs.Givens.{given_steps, IsGiven};
ghost use Rattle.k_cheapest.specs.Settings.{steps_in};

use crate::setting::Setting;
use bumpalo::Bump;
use ml_base::{NoMemory, StepNo, Weight};

/// A list of steps, the first one in front.
#[derive(Clone, Copy)]
pub enum Tail<'a> {
    End,
    Step { rest: &'a Tail<'a>, step: StepNo },
}

/// The given steps of a set of walks, which are the last ones, and their weight.
#[derive(Clone, Copy)]
pub struct Given<'a> {
    pub tail: &'a Tail<'a>,
    pub weight: Weight,
}

fn place<'a>(arena: &'a Bump, tail: Tail<'a>) -> Result<&'a Tail<'a>, NoMemory>
    ensures { IfOk result (λ t. t.now ≡ tail.entry) }
{
    match arena.try_alloc(tail) {
        Ok(place) => Ok(place),
        Err(_) => Err(NoMemory),
    }
}

/// No steps are given.
pub fn nothing<'a>(arena: &'a Bump) -> Result<Given<'a>, NoMemory>
    ensures steps { IfOk result (λ g. given_steps g ≡ []) }
    ensures given { IfOk result (λ g. (steps : List MachineStep) → IsGiven steps g) }
{
    let tail = place(arena, Tail::End)?;
    let weight = Weight::zero();
    Ok(Given { tail, weight })
}

/// The step before the given ones.
pub fn before<'a>(
    setting: Setting<'_, 'a>,
    given: Given<'a>,
    step: StepNo,
) -> Result<Given<'a>, NoMemory>
    requires below { step.0 < length (steps_in setting) }
    requires given { IsGiven (steps_in setting) given }
    ensures steps { IfOk result (λ g. given_steps g ≡ step.0 ∷ given_steps given.entry) }
    ensures given { IfOk result (λ g. IsGiven (steps_in setting.entry) g) }
{
    let taken = setting.machine.step(step);
    let weight = Weight::known(taken.cost, 1).plus(given.weight);
    let rest = given.tail;
    let tail = place(setting.arena, Tail::Step { rest, step })?;
    Ok(Given { tail, weight })
}
