ghost use Rattle.std.specs.Prelude.{◌≡◌, ◌∷◌, [], IfOk};
ghost use Rattle.adapt_machine.specs.Machine.{flat_step, push_step, pop_step};

use crate::{flat, nest, root};
use adapt_machine::Machine;
use bumpalo::Bump;
use ml_base::{FrameNo, NoMemory, StateNo, StepNo, Weight};
use std::alloc::Global;
use std::test::Fail;

/// A flat step, at the greatest cost, from the one state to itself.
fn loop_machine(alloc: Global) -> Result<Machine, NoMemory>
    ensures { IfOk result (λ m. m.steps ≡ flat_step (record { 0 = 0 }) (record { 0 = 0 }) 18446744073709551615 ∷ []) }
{
    let mut machine = Machine::new(alloc, 1, 0);
    machine.add_flat(StateNo(0), StateNo(0), u64::MAX)?;
    Ok(machine)
}

/// A push from 0 into 2, a flat step from 2 to 3, and a pop from 3 to 1.
fn nest_machine(alloc: Global) -> Result<Machine, NoMemory>
    ensures { IfOk result (λ m. m.steps ≡ push_step (record { 0 = 0 }) (record { 0 = 2 }) (record { 0 = 0 }) 1
        ∷ (flat_step (record { 0 = 2 }) (record { 0 = 3 }) 1 ∷ (pop_step (record { 0 = 3 }) (record { 0 = 1 }) (record { 0 = 0 }) 1 ∷ []))) }
{
    let mut machine = Machine::new(alloc, 4, 1);
    machine.add_push(StateNo(0), StateNo(2), FrameNo(0), 1)?;
    machine.add_flat(StateNo(2), StateNo(3), 1)?;
    machine.add_pop(StateNo(3), StateNo(1), FrameNo(0), 1)?;
    Ok(machine)
}

#[test]
fn a_loop_weighs_up_to_past(rt: HostRuntime) -> Result<(), Fail> {
    let machine = loop_machine(rt.alloc())?;
    let arena = Bump::new(rt.alloc());
    let none = root(&arena, StateNo(0))?;
    let once = flat(&arena, &machine, none, StepNo(0))?;
    let twice = flat(&arena, &machine, once, StepNo(0))?;
    assert_eq!(rt; none.weight(), Weight::Known { cost: 0, hops: 0 });
    assert_eq!(rt;
        once.weight(),
        Weight::Known {
            cost: 18446744073709551615,
            hops: 1
        }
    );
    assert_eq!(rt; twice.weight(), Weight::Past);
    Ok(())
}

#[test]
fn a_nest_has_the_weight_of_its_parts(rt: HostRuntime) -> Result<(), Fail> {
    let machine = nest_machine(rt.alloc())?;
    let arena = Bump::new(rt.alloc());
    let prev = root(&arena, StateNo(0))?;
    let inner = flat(&arena, &machine, root(&arena, StateNo(2))?, StepNo(1))?;
    let made = nest(&arena, &machine, prev, StepNo(0), inner, StepNo(2))?;
    assert_eq!(rt; (made.first(), made.last()), (StateNo(0), StateNo(1)));
    assert_eq!(rt; made.weight(), Weight::Known { cost: 3, hops: 3 });
    Ok(())
}
