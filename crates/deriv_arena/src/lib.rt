//! Derivations of segments of a pushdown machine. A derivation says how a segment is put together; its parts are shared,
//! by reference, and lie in an arena.
#![tactic(auto)]

ghost use Rattle.std.specs.Prelude.{◌≡◌, ℕ, List, IfOk};
ghost use Rattle.adapt_machine.specs.declared.MachineStep.{MachineStep};
ghost use Rattle.adapt_machine.specs.Walks.{system_of, weight_of};
ghost use Rattle.deriv_arena.specs.Derivation.{first_of, last_of, kept_weight, form_of, unfolding_of, IsOver, Rests, Extends, Encloses, Nests};

mod laws;
#[cfg(test)]
mod tests;

use adapt_machine::Machine;
use bumpalo::Bump;
pub use laws::segment_law;
use ml_base::{NoMemory, StateNo, StepNo, Weight};

/// A derivation of a segment from its first state to its last. Contracts see its first and last state, its weight and its
/// form. Its steps, in order, are its unfolding, which can be exponentially longer than the derivation is large: so it has
/// no comparison and no `Debug`, which would walk it.
///
/// It lives no longer than the arena that holds its parts. This does not compile (E0515):
///
/// ```text
/// fn kept<'a>(alloc: Global, state: StateNo) -> Result<Deriv<'a>, NoMemory> {
///     let arena = Bump::new(alloc);
///     let deriv = root(&arena, state)?;
///     Ok(*deriv)
/// }
/// ```
#[derive(Clone, Copy)]
#[cycle(deriv)]
pub struct Deriv<'a> {
    first: StateNo,
    last: StateNo,
    weight: Weight,
    form: DerivForm<'a>,
}

/// How a derivation is made.
#[derive(Clone, Copy)]
#[cycle(deriv)]
pub enum DerivForm<'a> {
    /// No step.
    Root,
    /// The steps of `prev`, then a flat step.
    Flat {
        prev: &'a Deriv<'a>,
        step: StepNo,
    },
    /// The steps of `prev`, then a push, the steps of `inner`, and a pop of the same frame.
    Nest {
        prev: &'a Deriv<'a>,
        push: StepNo,
        inner: &'a Deriv<'a>,
        pop: StepNo,
    },
}

impl<'a> Deriv<'a> {
    /// The capped weight of the unfolding, in each machine that the derivation is over.
    pub fn weight(&self) -> Weight
        ensures is { result ≡ kept_weight self.now }
        ensures unfolded { (steps : List MachineStep) → IsOver steps self.now → result ≡ weight_of steps (unfolding_of self.now) }
    {
        self.weight
    }

    /// The state that the derivation begins at.
    pub fn first(&self) -> StateNo
        ensures { result ≡ first_of self.now }
    {
        self.first
    }

    /// The state that the derivation ends at.
    pub fn last(&self) -> StateNo
        ensures { result ≡ last_of self.now }
    {
        self.last
    }

    /// How the derivation is made, with its parts.
    pub fn form(&self) -> DerivForm<'a>
        ensures { result ≡ form_of self.now }
    {
        self.form
    }
}

/// Puts a derivation into the arena.
fn place<'a>(arena: &'a Bump, deriv: Deriv<'a>) -> Result<&'a Deriv<'a>, NoMemory>
    ensures { IfOk result (λ d. d.now ≡ deriv.entry) }
{
    let place = arena.try_alloc(deriv)?;
    Ok(place)
}

/// The derivation of no steps, at a state.
pub fn root<'a>(arena: &'a Bump, state: StateNo) -> Result<&'a Deriv<'a>, NoMemory>
    ensures form { IfOk result (λ d. form_of d.now ≡ DerivForm.Root) }
    ensures rests { IfOk result (λ d. Rests d.now state) }
    ensures over { IfOk result (λ d. (steps : List MachineStep) → IsOver steps d.now) }
{
    place(
        arena,
        Deriv {
            first: state,
            last: state,
            weight: Weight::zero(),
            form: DerivForm::Root,
        },
    )
}

/// `prev` with one more flat step.
pub fn flat<'a>(
    arena: &'a Bump,
    machine: &Machine,
    prev: &'a Deriv<'a>,
    step: StepNo,
) -> Result<&'a Deriv<'a>, NoMemory>
    requires over { IsOver machine.now.steps prev.now }
    requires keeps { (y : StateNo) × (system_of machine.now.steps).Keeps (last_of prev.now) step.0 y }
    ensures form { IfOk result (λ d. form_of d.now ≡ DerivForm.Flat prev.entry step) }
    ensures extends { IfOk result (λ d. Extends machine.now.steps prev.now step.0 d.now) }
    ensures over { IfOk result (λ d. IsOver machine.now.steps d.now) }
{
    let taken = machine.step(step);
    let weight = prev.weight.plus(Weight::known(taken.cost, 1));
    place(
        arena,
        Deriv {
            first: prev.first,
            last: taken.to,
            weight,
            form: DerivForm::Flat { prev, step },
        },
    )
}

/// `prev` with one more nest: a push, `inner`, and a pop of the frame that was pushed.
pub fn nest<'a>(
    arena: &'a Bump,
    machine: &Machine,
    prev: &'a Deriv<'a>,
    push: StepNo,
    inner: &'a Deriv<'a>,
    pop: StepNo,
) -> Result<&'a Deriv<'a>, NoMemory>
    requires over { IsOver machine.now.steps prev.now }
    requires inner_over { IsOver machine.now.steps inner.now }
    requires encloses { (z : StateNo) × Encloses machine.now.steps prev.now push.0 inner.now pop.0 z }
    ensures form { IfOk result (λ d. form_of d.now ≡ DerivForm.Nest prev.entry push inner.entry pop) }
    ensures nests { IfOk result (λ d. Nests machine.now.steps prev.now push.0 inner.now pop.0 d.now) }
    ensures over { IfOk result (λ d. IsOver machine.now.steps d.now) }
{
    let pushed = machine.step(push);
    let popped = machine.step(pop);
    let weight = prev
        .weight
        .plus(Weight::known(pushed.cost, 1))
        .plus(inner.weight)
        .plus(Weight::known(popped.cost, 1));
    place(
        arena,
        Deriv {
            first: prev.first,
            last: popped.to,
            weight,
            form: DerivForm::Nest {
                prev,
                push,
                inner,
                pop,
            },
        },
    )
}
