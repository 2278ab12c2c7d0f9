use crate::Plan;
use adapt_machine::MachineKind::{Flat, Pop, Push};
use adapt_machine::{Machine, MachineKind};
use ml_base::{FrameNo, NoMemory, Root, StateNo};
use std::alloc::Global;
use std::test::Fail;

/// A step of a small machine: kind, from, to and frame.
type Small = (MachineKind, u64, u64, u64);

/// The number of frames, steps over six states, the lane of each state, and the last lane.
type Case = (u64, &'static [Small], [u64; 6], u64);

/// Adds a step, unless it is over numbers that the machine does not have.
fn add(machine: &mut Machine, step: Small) -> Result<(), NoMemory> {
    let (kind, from, to, frame) = step;
    if from >= machine.states() || to >= machine.states() {
        return Ok(());
    }
    let is_frame = frame < machine.frames();
    let (from, to, frame) = (StateNo(from), StateNo(to), FrameNo(frame));
    match kind {
        Flat => {
            machine.add_flat(from, to, 1)?;
        }
        Push if is_frame => {
            machine.add_push(from, to, frame, 1)?;
        }
        Pop if is_frame => {
            machine.add_pop(from, to, frame, 1)?;
        }
        _ => {}
    }
    Ok(())
}

/// The plan of six states and these steps.
fn plan_of(alloc: Global, frames: u64, steps: &[Small]) -> Result<Plan, NoMemory> {
    let mut machine = Machine::new(alloc, 6, frames);
    for step in steps {
        add(&mut machine, *step)?;
    }
    Plan::new(alloc, &machine)
}

#[test]
fn inner_roots_come_first(rt: HostRuntime) -> Result<(), Fail> {
    let cases: [Case; 7] = [
        // no frames
        (
            0,
            &[(Flat, 0, 1, 0), (Flat, 1, 2, 0)],
            [0, 0, 0, 0, 0, 0],
            0,
        ),
        // a layer inside the request's
        (
            1,
            &[(Push, 0, 2, 0), (Flat, 2, 3, 0), (Pop, 3, 1, 0)],
            [1, 1, 0, 1, 1, 1],
            1,
        ),
        // a layer inside a layer
        (
            2,
            &[
                (Push, 0, 2, 0),
                (Push, 2, 4, 1),
                (Flat, 4, 5, 0),
                (Pop, 5, 3, 1),
                (Pop, 3, 1, 0),
            ],
            [2, 2, 1, 2, 0, 2],
            2,
        ),
        // two roots of one component
        (
            1,
            &[(Push, 0, 3, 0), (Push, 0, 2, 0), (Flat, 3, 2, 0)],
            [2, 2, 0, 1, 2, 2],
            2,
        ),
        // a push from where a pop ends into where another push begins, beside an inner layer
        (
            2,
            &[(Push, 0, 2, 0), (Pop, 2, 1, 0), (Push, 1, 0, 1)],
            [1, 1, 0, 1, 1, 1],
            1,
        ),
        // pushes in a circle between 0 and 1, an inner layer at 2, and a layer at 3 that leads into the circle
        (
            5,
            &[
                (Push, 0, 1, 0),
                (Push, 1, 0, 1),
                (Push, 1, 2, 2),
                (Push, 3, 0, 3),
                (Push, 4, 3, 4),
            ],
            [1, 1, 0, 1, 1, 1],
            1,
        ),
        // three layers of which the middle one is entered from two
        (
            4,
            &[
                (Push, 1, 5, 0),
                (Push, 2, 1, 1),
                (Push, 3, 1, 2),
                (Push, 4, 3, 3),
            ],
            [3, 1, 3, 2, 3, 0],
            3,
        ),
    ];
    for (frames, steps, lanes, last) in cases {
        let plan = plan_of(rt.alloc(), frames, steps)?;
        assert_eq!(rt; plan.lane(Root::Request), last);
        assert_eq!(rt; plan.lanes(), last + 1);
        for (number, lane) in lanes.iter().enumerate() {
            let root = Root::Entry(StateNo(number as u64));
            assert_eq!(rt; plan.lane(root), *lane, "{number} of {frames} frames");
        }
    }
    Ok(())
}
