ghost use Rattle.std.specs.Prelude.{◌<◌};

use crate::enumeration::weights;
use crate::{KFound, k_best};
use adapt_machine::Machine;
use adapt_machine::MachineKind::{self, Flat, Pop, Push};
use ml_base::{FrameNo, KEnd, NoMemory, StateNo, StepNo, Weight};
use segment_grammar::Index;
use std::alloc::Global;
use std::test::Fail;

/// A step by its kind, its states, its frame and its cost.
type Small = (MachineKind, u64, u64, u64, u64);

/// Adds the step, if its numbers are below the machine's.
fn add(machine: &mut Machine, step: Small) -> Result<(), NoMemory> {
    let (kind, from, to, frame, cost) = step;
    if from >= machine.states() || to >= machine.states() || frame >= machine.frames() {
        return Ok(());
    }
    match kind {
        Flat => machine.add_flat(StateNo(from), StateNo(to), cost)?,
        Push => machine.add_push(StateNo(from), StateNo(to), FrameNo(frame), cost)?,
        Pop => machine.add_pop(StateNo(from), StateNo(to), FrameNo(frame), cost)?,
    };
    Ok(())
}

/// A machine of four states and two frames.
fn small_machine(alloc: Global, steps: &[Small]) -> Result<Machine, NoMemory> {
    let mut machine = Machine::new(alloc, 4, 2);
    for step in steps {
        add(&mut machine, *step)?;
    }
    Ok(machine)
}

/// The walks from state 0 to state 1.
fn find(alloc: Global, machine: &Machine, k: u32, limit: u64) -> Result<KFound, Fail>
    requires { limit < 1000 }
{
    if machine.states() == 0 {
        return Err(Fail::new("a machine without states"));
    }
    let index = Index::new(alloc, machine)?;
    let found = k_best(
        alloc,
        machine,
        &index,
        &[StateNo(0)],
        &[StateNo(1)],
        k,
        limit,
    )?;
    Ok(found)
}

/// Whether the weights of the listed walks are the least of those of all walks that are no longer than the limit.
fn are_least(alloc: Global, machine: &Machine, found: &KFound, limit: u64) -> Result<bool, Fail> {
    let all = weights(alloc, machine, StateNo(0), StateNo(1), limit)?;
    let mut rest = all.iter();
    for walk in found.walks.as_slice() {
        if rest.next() != Some(&walk.weight) {
            return Ok(false);
        }
    }
    let none_left = rest.next().is_none();
    Ok(found.end != KEnd::NoMore || none_left)
}

#[test]
fn the_lighter_link_comes_first(rt: HostRuntime) -> Result<(), Fail> {
    let machine = small_machine(rt.alloc(), &[(Flat, 0, 1, 0, 3), (Flat, 0, 1, 0, 2)])?;
    let found = find(rt.alloc(), &machine, 3, 9)?;
    assert_eq!(rt; found.end, KEnd::NoMore);
    let walks = found.walks.as_slice();
    assert_eq!(rt; walks.len(), 2);
    assert_eq!(rt; walks[0].weight, Weight::known(2, 1));
    assert_eq!(rt; walks[0].steps.as_slice(), [StepNo(1)].as_slice());
    assert_eq!(rt; walks[1].weight, Weight::known(3, 1));
    assert_eq!(rt; walks[1].steps.as_slice(), [StepNo(0)].as_slice());
    Ok(())
}

#[test]
fn a_walk_may_go_round_a_loop(rt: HostRuntime) -> Result<(), Fail> {
    let steps = [(Flat, 0, 2, 0, 0), (Flat, 2, 0, 0, 0), (Flat, 2, 1, 0, 0)];
    let machine = small_machine(rt.alloc(), &steps)?;
    let found = find(rt.alloc(), &machine, 2, 9)?;
    assert_eq!(rt; found.end, KEnd::Enough);
    let walks = found.walks.as_slice();
    assert_eq!(rt; walks.len(), 2);
    assert_eq!(rt;
        walks[0].steps.as_slice(),
        [StepNo(0), StepNo(2)].as_slice()
    );
    let round = [StepNo(0), StepNo(1), StepNo(0), StepNo(2)];
    assert_eq!(rt; walks[1].steps.as_slice(), round.as_slice());
    Ok(())
}

#[test]
fn the_ends_and_the_weights_are_those_of_all_walks(rt: HostRuntime) -> Result<(), Fail> {
    let alloc = rt.alloc();
    let most = 18_446_744_073_709_551_615;
    let cases: [(&str, &[Small], u32, u64, KEnd); 9] = [
        ("no steps", &[], 3, 5, KEnd::NoMore),
        ("none asked for", &[(Flat, 0, 1, 0, 1)], 0, 5, KEnd::Enough),
        (
            "a cost of 2^64",
            &[
                (Flat, 0, 2, 0, most),
                (Flat, 2, 1, 0, 1),
                (Flat, 0, 1, 0, 4),
            ],
            3,
            5,
            KEnd::Past,
        ),
        (
            "too many hops",
            &[(Flat, 0, 2, 0, 1), (Flat, 2, 1, 0, 1), (Flat, 0, 1, 0, 1)],
            3,
            1,
            KEnd::Long { cost: 2, hops: 2 },
        ),
        (
            "a nest with two inner parts",
            &[
                (Push, 0, 2, 0, 1),
                (Flat, 2, 3, 0, 5),
                (Flat, 2, 3, 0, 1),
                (Pop, 3, 1, 0, 1),
                (Pop, 3, 1, 1, 0),
            ],
            5,
            9,
            KEnd::NoMore,
        ),
        (
            "nests without end",
            &[
                (Push, 0, 0, 0, 1),
                (Push, 0, 0, 1, 2),
                (Flat, 0, 1, 0, 1),
                (Pop, 1, 1, 0, 1),
                (Pop, 1, 1, 1, 1),
            ],
            7,
            7,
            KEnd::Enough,
        ),
        (
            "a nest entered from two places",
            &[
                (Push, 0, 2, 0, 1),
                (Flat, 0, 3, 0, 1),
                (Push, 3, 2, 0, 1),
                (Pop, 2, 1, 0, 1),
                (Flat, 2, 2, 0, 2),
            ],
            6,
            7,
            KEnd::Enough,
        ),
        (
            "a loop at the target",
            &[(Flat, 0, 1, 0, 1), (Flat, 1, 1, 0, 1), (Flat, 1, 0, 0, 1)],
            8,
            6,
            KEnd::Enough,
        ),
        (
            "walks of one weight",
            &[
                (Flat, 0, 2, 0, 1),
                (Flat, 0, 2, 0, 1),
                (Flat, 2, 1, 0, 1),
                (Flat, 2, 1, 0, 1),
            ],
            9,
            6,
            KEnd::NoMore,
        ),
    ];
    for (name, steps, k, limit, end) in cases {
        let machine = small_machine(alloc, steps)?;
        if limit < 1000 {
            let found = find(alloc, &machine, k, limit)?;
            assert_eq!(rt; found.end, end, "{name}");
            assert!(rt; are_least(alloc, &machine, &found, limit)?, "{name}");
        }
    }
    Ok(())
}
