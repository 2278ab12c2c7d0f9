ghost use Rattle.std.specs.Prelude.{◌≡◌, ◌∷◌, [], IfOk};
ghost use Rattle.adapt_machine.specs.Machine.{flat_step, push_step, pop_step};
ghost use Rattle.deriv_arena.specs.Derivation.{IsOver};

use crate::{Unfold, UnfoldFault};
use adapt_machine::Machine;
use bumpalo::Bump;
use deriv_arena::{Deriv, flat, nest, root};
use ml_base::{FrameNo, NoMemory, StateNo, StepNo};
use std::alloc::Global;
use std::iter::ExactSizeIterator;
use std::test::Fail;

/// A flat step, at the greatest cost, from the one state to itself.
fn loop_machine(alloc: Global) -> Result<Machine, NoMemory>
    ensures { IfOk result (λ m. m.steps ≡ flat_step (record { 0 = 0 }) (record { 0 = 0 }) 18446744073709551615 ∷ []) }
{
    let mut machine = Machine::new(alloc, 1, 0);
    machine.add_flat(StateNo(0), StateNo(0), u64::MAX)?;
    Ok(machine)
}

/// A push from 0 into 2, a flat step from 2 to 3, and a pop from 3 to 1.
fn nest_machine(alloc: Global) -> Result<Machine, NoMemory>
    ensures { IfOk result (λ m. m.steps ≡ push_step (record { 0 = 0 }) (record { 0 = 2 }) (record { 0 = 0 }) 1
        ∷ (flat_step (record { 0 = 2 }) (record { 0 = 3 }) 1 ∷ (pop_step (record { 0 = 3 }) (record { 0 = 1 }) (record { 0 = 0 }) 1 ∷ []))) }
{
    let mut machine = Machine::new(alloc, 4, 1);
    machine.add_push(StateNo(0), StateNo(2), FrameNo(0), 1)?;
    machine.add_flat(StateNo(2), StateNo(3), 1)?;
    machine.add_pop(StateNo(3), StateNo(1), FrameNo(0), 1)?;
    Ok(machine)
}

/// A push and a pop of one frame, at no cost, from the one state to itself.
fn tower_machine(alloc: Global) -> Result<Machine, NoMemory>
    ensures { IfOk result (λ m. m.steps ≡ push_step (record { 0 = 0 }) (record { 0 = 0 }) (record { 0 = 0 }) 0
        ∷ (pop_step (record { 0 = 0 }) (record { 0 = 0 }) (record { 0 = 0 }) 0 ∷ [])) }
{
    let mut machine = Machine::new(alloc, 1, 1);
    machine.add_push(StateNo(0), StateNo(0), FrameNo(0), 0)?;
    machine.add_pop(StateNo(0), StateNo(0), FrameNo(0), 0)?;
    Ok(machine)
}

/// As many nests as levels, each in the next.
fn tower<'a>(arena: &'a Bump, machine: &Machine, levels: u64) -> Result<&'a Deriv<'a>, NoMemory>
    requires { machine.now.steps ≡ push_step (record { 0 = 0 }) (record { 0 = 0 }) (record { 0 = 0 }) 0
        ∷ (pop_step (record { 0 = 0 }) (record { 0 = 0 }) (record { 0 = 0 }) 0 ∷ []) }
    ensures { IfOk result (λ d. IsOver machine.now.steps d.now) }
{
    let prev = root(arena, StateNo(0))?;
    let mut made = prev;
    'levels: for _ in 0..levels {
        made = nest(arena, machine, prev, StepNo(0), made, StepNo(1))?;
    }
    Ok(made)
}

#[test]
fn a_nest_unfolds_to_its_steps(rt: HostRuntime) -> Result<(), Fail> {
    let machine = nest_machine(rt.alloc())?;
    let arena = Bump::new(rt.alloc());
    let prev = root(&arena, StateNo(0))?;
    let inner = flat(&arena, &machine, root(&arena, StateNo(2))?, StepNo(1))?;
    let made = nest(&arena, &machine, prev, StepNo(0), inner, StepNo(2))?;
    let short = Unfold::new(rt.alloc(), &machine, made, 2);
    assert_eq!(rt; short.err(), Some(UnfoldFault::Long { hops: 3 }));
    let mut steps = Unfold::new(rt.alloc(), &machine, made, 3)?;
    assert_eq!(rt; steps.len(), 3);
    for want in [
        Some(StepNo(0)),
        Some(StepNo(1)),
        Some(StepNo(2)),
        None,
        None,
    ] {
        assert_eq!(rt; steps.next(), want);
    }
    Ok(())
}

#[test]
fn a_cost_of_2_to_the_64_is_past(rt: HostRuntime) -> Result<(), Fail> {
    let machine = loop_machine(rt.alloc())?;
    let arena = Bump::new(rt.alloc());
    let once = flat(&arena, &machine, root(&arena, StateNo(0))?, StepNo(0))?;
    let twice = flat(&arena, &machine, once, StepNo(0))?;
    let steps = Unfold::new(rt.alloc(), &machine, twice, 3);
    assert_eq!(rt; steps.err(), Some(UnfoldFault::Past));
    Ok(())
}

#[test]
fn a_million_nests_unfold(rt: HostRuntime) -> Result<(), Fail> {
    let machine = tower_machine(rt.alloc())?;
    let arena = Bump::new(rt.alloc());
    let made = tower(&arena, &machine, 1_000_000)?;
    let mut steps = Unfold::new(rt.alloc(), &machine, made, 2_000_000)?;
    assert_eq!(rt; steps.len(), 2_000_000);
    assert_eq!(rt;
        (steps.nth(999_999), steps.next()),
        (Some(StepNo(0)), Some(StepNo(1)))
    );
    assert_eq!(rt; (steps.nth(999_998), steps.next()), (Some(StepNo(1)), None));
    Ok(())
}
