use crate::made::Product;
use crate::marks::Marks;
use adapt_machine::{Machine, MachineKind, MachineStep};
use ml_base::{FrameNo, NoMemory, StateNo, StepNo};
use std::alloc::Global;

/// A push, a flat step inside, a pop, and a flat step behind it.
fn machine(alloc: Global) -> Result<Machine, NoMemory> {
    let mut machine = Machine::new(alloc, 4, 1);
    machine.add_push(StateNo(0), StateNo(1), FrameNo(0), 2)?;
    machine.add_flat(StateNo(1), StateNo(2), 3)?;
    machine.add_pop(StateNo(2), StateNo(3), FrameNo(0), 5)?;
    machine.add_flat(StateNo(3), StateNo(3), 7)?;
    Ok(machine)
}

/// A push keeps the mark and puts it beside its frame, the step inside leads from mark 0 to mark 1 alone, the pop leads back to the
/// frame's mark, and the last step is only at mark 0.
fn marks(alloc: Global) -> Result<Marks, NoMemory> {
    let kept = vec![in alloc; Some(0u64), Some(1u64)]?;
    let raised = vec![in alloc; Some(1u64), None]?;
    let back = vec![in alloc; Some(0u64), Some(0u64), Some(1u64), Some(1u64)]?;
    let ended = vec![in alloc; Some(0u64), Some(2u64)]?;
    Ok(Marks {
        count: 2,
        frame_count: 2,
        puts: vec![in alloc; 0, 1]?,
        classes: vec![in alloc; 0, 1, 2, 3]?,
        rows: vec![in alloc; kept, raised, back, ended]?,
    })
}

fn step(kind: MachineKind, from: u64, to: u64, frame: u64, cost: u64) -> MachineStep {
    MachineStep {
        kind,
        from: StateNo(from),
        to: StateNo(to),
        frame: FrameNo(frame),
        cost,
    }
}

/// Whether the product has this step at this place, from the step of the machine.
fn has(product: &Product, place: u64, base: u64, step: MachineStep) -> bool {
    if place >= product.machine().steps() {
        return false;
    }
    product.base_step(StepNo(place)) == StepNo(base)
        && product.machine().step(StepNo(place)) == step
}

#[test]
fn the_steps_of_a_product(rt: HostRuntime) -> Result<(), NoMemory> {
    let machine = machine(rt.alloc())?;
    let marks = marks(rt.alloc())?;
    let product = Product::new(rt.alloc(), &machine, &marks)?;
    assert!(rt; has(&product, 0, 0, step(MachineKind::Push, 0, 2, 0, 2)));
    assert!(rt; has(&product, 1, 0, step(MachineKind::Push, 1, 3, 1, 2)));
    assert!(rt; has(&product, 2, 1, step(MachineKind::Flat, 2, 5, 0, 3)));
    assert!(rt; has(&product, 3, 2, step(MachineKind::Pop, 4, 6, 0, 5)));
    assert!(rt; has(&product, 4, 2, step(MachineKind::Pop, 4, 7, 1, 5)));
    assert!(rt; has(&product, 5, 2, step(MachineKind::Pop, 5, 6, 0, 5)));
    assert!(rt; has(&product, 6, 2, step(MachineKind::Pop, 5, 7, 1, 5)));
    assert!(rt; has(&product, 7, 3, step(MachineKind::Flat, 6, 6, 0, 7)));
    assert_eq!(rt; product.machine().steps(), 8);
    assert_eq!(rt; product.machine().states(), 8);
    assert_eq!(rt; product.machine().frames(), 2);
    Ok(())
}

#[test]
fn the_parts_of_a_state(rt: HostRuntime) -> Result<(), NoMemory> {
    let machine = machine(rt.alloc())?;
    let marks = marks(rt.alloc())?;
    let product = Product::new(rt.alloc(), &machine, &marks)?;
    assert_eq!(rt; product.machine().states(), 8);
    assert_eq!(rt; product.base_state(StateNo(7)), StateNo(3));
    assert_eq!(rt; product.mark(StateNo(7)), 1);
    assert_eq!(rt; product.state(StateNo(3), 1), StateNo(7));
    Ok(())
}
