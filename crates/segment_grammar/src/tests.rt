ghost use Rattle.std.specs.Prelude.{◌≡◌, IfOk};

use crate::{Index, Pot, Potentials};
use adapt_machine::Machine;
use ml_base::{FrameNo, NoMemory, Root, StateNo, StepNo, Weight};
use std::alloc::Global;
use std::test::Fail;

/// A push from 0 into 2, a flat step from 2 to 3, and a pop from 3 to 1.
fn nest_machine(alloc: Global) -> Result<Machine, NoMemory>
    ensures { IfOk result (λ m. m.states ≡ 4) }
{
    let mut machine = Machine::new(alloc, 4, 1);
    machine.add_push(StateNo(0), StateNo(2), FrameNo(0), 1)?;
    machine.add_flat(StateNo(2), StateNo(3), 1)?;
    machine.add_pop(StateNo(3), StateNo(1), FrameNo(0), 1)?;
    Ok(machine)
}

#[test]
fn steps_are_found_by_their_ends(rt: HostRuntime) -> Result<(), Fail> {
    let machine = nest_machine(rt.alloc())?;
    let index = Index::new(rt.alloc(), &machine)?;
    assert_eq!(rt; index.pushes(StateNo(0)), [StepNo(0)].as_slice());
    assert_eq!(rt; index.pushes_into(StateNo(2)), [StepNo(0)].as_slice());
    assert_eq!(rt; index.flats(StateNo(2)), [StepNo(1)].as_slice());
    assert_eq!(rt; index.pops(StateNo(3), FrameNo(0)), [StepNo(2)].as_slice());
    assert_eq!(rt; index.pops(StateNo(2), FrameNo(0)).len(), 0);
    Ok(())
}

#[test]
fn a_row_has_its_steps_in_order(rt: HostRuntime) -> Result<(), Fail> {
    let mut machine = Machine::new(rt.alloc(), 3, 2);
    machine.add_flat(StateNo(1), StateNo(0), 1)?;
    machine.add_pop(StateNo(2), StateNo(0), FrameNo(1), 1)?;
    machine.add_flat(StateNo(0), StateNo(1), 1)?;
    machine.add_pop(StateNo(2), StateNo(0), FrameNo(0), 1)?;
    machine.add_flat(StateNo(1), StateNo(2), 1)?;
    machine.add_pop(StateNo(2), StateNo(1), FrameNo(1), 1)?;
    let index = Index::new(rt.alloc(), &machine)?;
    assert_eq!(rt; index.flats(StateNo(0)), [StepNo(2)].as_slice());
    assert_eq!(rt; index.flats(StateNo(1)), [StepNo(0), StepNo(4)].as_slice());
    assert_eq!(rt; index.flats(StateNo(2)).len(), 0);
    assert_eq!(rt;
        index.pops(StateNo(2), FrameNo(1)),
        [StepNo(1), StepNo(5)].as_slice()
    );
    assert_eq!(rt; index.pops(StateNo(2), FrameNo(0)), [StepNo(3)].as_slice());
    Ok(())
}

#[test]
fn without_frames_each_step_is_flat(rt: HostRuntime) -> Result<(), Fail> {
    let mut machine = Machine::new(rt.alloc(), 2, 0);
    machine.add_flat(StateNo(0), StateNo(1), 1)?;
    let index = Index::new(rt.alloc(), &machine)?;
    assert_eq!(rt; index.flats(StateNo(0)), [StepNo(0)].as_slice());
    assert_eq!(rt; index.pushes(StateNo(0)).len(), 0);
    assert_eq!(rt; index.pushes_into(StateNo(1)).len(), 0);
    assert_eq!(rt; index.pops(StateNo(1), FrameNo(0)).len(), 0);
    Ok(())
}

#[test]
fn weights_are_found_by_root_and_state(rt: HostRuntime) -> Result<(), Fail> {
    let mut list = Potentials::new(rt.alloc());
    let inside = Root::Entry(StateNo(2));
    list.push(Pot {
        root: Root::Request,
        state: StateNo(1),
        weight: Weight::known(3, 3),
    })?;
    assert_eq!(rt;
        list.weight(Root::Request, StateNo(1)),
        Some(Weight::known(3, 3))
    );
    assert_eq!(rt; list.weight(inside, StateNo(1)), None);
    assert_eq!(rt; list.len(), 1);
    Ok(())
}
