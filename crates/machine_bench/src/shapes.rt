use adapt_machine::Machine;
use ml_base::{FrameNo, NoMemory, StateNo};
use std::alloc::Global;
use thiserror::Error;

/// Why a machine is not built.
#[derive(Clone, Copy, Debug, PartialEq, Eq, Error)]
pub enum ShapeFault {
    #[error("too small or too large")]
    Range,
    #[error("out of memory")]
    NoMemory,
}

impl From<NoMemory> for ShapeFault {
    fn from(_: NoMemory) -> ShapeFault {
        ShapeFault::NoMemory
    }
}

/// The shapes that are measured. Each is searched from one state to one other.
#[derive(Clone, Copy, Debug)]
pub enum Shape {
    /// From each state s but one, at cost 1, to s + 150,001, in a ring; the one left out would lead back to state 0.
    Chain { states: u64 },
    /// A row of states; each but the last pushes into a row of `size` states of its own, whose last pops back to the next.
    Roots { roots: u64, size: u64 },
    /// A row of states; each but the last pushes a frame of its own and enters, by a state of its own, one row of `size`
    /// states that all share, whose last pops each frame to the state after the one that pushed it.
    Shared { roots: u64, size: u64 },
    /// Levels of three states; each but the lowest goes from its first to its second, and from that to its third, through
    /// the level below, so that the walk doubles with each level.
    Nest { levels: u64 },
    /// A row of states, each of which pushes one frame into one state, whence pops lead to as many states.
    Ways { ways: u64 },
}

/// A machine, and where its search begins and ends.
#[derive(Drop)]
pub struct Task {
    pub machine: Machine,
    pub start: StateNo,
    pub target: StateNo,
}

fn sum(a: u64, b: u64) -> Result<u64, ShapeFault> {
    a.checked_add(b).ok_or(ShapeFault::Range)
}

fn product(a: u64, b: u64) -> Result<u64, ShapeFault> {
    a.checked_mul(b).ok_or(ShapeFault::Range)
}

fn flat(machine: &mut Machine, from: u64, to: u64, cost: u64) -> Result<(), ShapeFault> {
    if from >= machine.states() || to >= machine.states() {
        return Err(ShapeFault::Range);
    }
    machine.add_flat(StateNo(from), StateNo(to), cost)?;
    Ok(())
}

fn push(
    machine: &mut Machine,
    from: u64,
    to: u64,
    frame: u64,
    cost: u64,
) -> Result<(), ShapeFault> {
    if from >= machine.states() || to >= machine.states() || frame >= machine.frames() {
        return Err(ShapeFault::Range);
    }
    machine.add_push(StateNo(from), StateNo(to), FrameNo(frame), cost)?;
    Ok(())
}

fn pop(machine: &mut Machine, from: u64, to: u64, frame: u64, cost: u64) -> Result<(), ShapeFault> {
    if from >= machine.states() || to >= machine.states() || frame >= machine.frames() {
        return Err(ShapeFault::Range);
    }
    machine.add_pop(StateNo(from), StateNo(to), FrameNo(frame), cost)?;
    Ok(())
}

/// States `first` to `first + size - 1`, one after the other.
fn row(machine: &mut Machine, first: u64, size: u64) -> Result<(), ShapeFault> {
    for place in 1..size {
        flat(machine, sum(first, place - 1)?, sum(first, place)?, 1)?;
    }
    Ok(())
}

fn chain(alloc: Global, states: u64) -> Result<Task, ShapeFault> {
    if states == 0 {
        return Err(ShapeFault::Range);
    }
    let stride = 150_001 % states;
    let mut machine = Machine::new(alloc, states, 0);
    for state in 0..states {
        let to = sum(state, stride)? % states;
        if to != 0 {
            flat(&mut machine, state, to, 1)?;
        }
    }
    Ok(Task {
        machine,
        start: StateNo(0),
        target: StateNo((states - stride) % states),
    })
}

fn roots(alloc: Global, roots: u64, size: u64) -> Result<Task, ShapeFault> {
    if size == 0 {
        return Err(ShapeFault::Range);
    }
    let rows = sum(roots, 1)?;
    let mut machine = Machine::new(alloc, sum(rows, product(roots, size)?)?, 1);
    for root in 0..roots {
        let first = sum(rows, product(root, size)?)?;
        push(&mut machine, root, first, 0, 1)?;
        row(&mut machine, first, size)?;
        pop(&mut machine, sum(first, size - 1)?, root + 1, 0, 1)?;
    }
    Ok(Task {
        machine,
        start: StateNo(0),
        target: StateNo(roots),
    })
}

fn shared(alloc: Global, roots: u64, size: u64) -> Result<Task, ShapeFault> {
    if size == 0 {
        return Err(ShapeFault::Range);
    }
    let entries = sum(roots, 1)?;
    let hub = sum(entries, roots)?;
    let mut machine = Machine::new(alloc, sum(hub, size)?, roots);
    row(&mut machine, hub, size)?;
    for root in 0..roots {
        push(&mut machine, root, sum(entries, root)?, root, 1)?;
        flat(&mut machine, sum(entries, root)?, hub, 1)?;
        pop(&mut machine, sum(hub, size - 1)?, root + 1, root, 1)?;
    }
    Ok(Task {
        machine,
        start: StateNo(0),
        target: StateNo(roots),
    })
}

/// The level whose first state is `first` and whose frames are `frame` and the next, through the level below.
fn level(machine: &mut Machine, first: u64, below: u64, frame: u64) -> Result<(), ShapeFault> {
    push(machine, first, below, frame, 0)?;
    pop(machine, sum(below, 2)?, sum(first, 1)?, frame, 0)?;
    push(machine, sum(first, 1)?, below, sum(frame, 1)?, 0)?;
    pop(machine, sum(below, 2)?, sum(first, 2)?, sum(frame, 1)?, 0)
}

fn nest(alloc: Global, levels: u64) -> Result<Task, ShapeFault> {
    let states = product(3, sum(levels, 1)?)?;
    let mut machine = Machine::new(alloc, states, product(2, levels)?);
    flat(&mut machine, 0, 2, 1)?;
    for below in 0..levels {
        level(
            &mut machine,
            product(3, below + 1)?,
            product(3, below)?,
            product(2, below)?,
        )?;
    }
    let first = product(3, levels)?;
    Ok(Task {
        machine,
        start: StateNo(first),
        target: StateNo(sum(first, 2)?),
    })
}

fn ways(alloc: Global, ways: u64) -> Result<Task, ShapeFault> {
    if ways == 0 {
        return Err(ShapeFault::Range);
    }
    let last = product(2, ways)?;
    let mut machine = Machine::new(alloc, sum(last, 1)?, 1);
    row(&mut machine, 0, ways)?;
    for way in 0..ways {
        push(&mut machine, way, ways, 0, 1)?;
        pop(&mut machine, ways, sum(ways, way + 1)?, 0, 1)?;
    }
    Ok(Task {
        machine,
        start: StateNo(0),
        target: StateNo(last),
    })
}

/// The machine of this shape.
pub fn task_of(alloc: Global, shape: Shape) -> Result<Task, ShapeFault> {
    match shape {
        Shape::Chain { states } => chain(alloc, states),
        Shape::Roots { roots: count, size } => roots(alloc, count, size),
        Shape::Shared { roots: count, size } => shared(alloc, count, size),
        Shape::Nest { levels } => nest(alloc, levels),
        Shape::Ways { ways: count } => ways(alloc, count),
    }
}
