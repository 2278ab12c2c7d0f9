ghost use Rattle.std.specs.Prelude.{◌≡◌, ◌<◌, IfOk};
ghost use Rattle.std.specs.List.{Contains};
ghost use Rattle.ml_base.specs.declared.numbers.StateNo.{StateNo};

use crate::saturation::{Small, saturate, small_machine};
use crate::{Settled, search};
use adapt_machine::Machine;
use adapt_machine::MachineKind::{Flat, Pop, Push};
use bumpalo::Bump;
use deriv_arena::DerivForm;
use ml_base::{FrameNo, NoMemory, Root, StateNo, StepNo, Weight};
use segment_grammar::{Index, Pot};
use std::alloc::Global;
use std::test::Fail;

/// A push from 0 into 2, a flat step from 2 to 3, and a pop from 3 to 1.
fn nest_machine(alloc: Global) -> Result<Machine, NoMemory>
    ensures { IfOk result (λ m. m.states ≡ 4) }
{
    let mut machine = Machine::new(alloc, 4, 1);
    machine.add_push(StateNo(0), StateNo(2), FrameNo(0), 1)?;
    machine.add_flat(StateNo(2), StateNo(3), 1)?;
    machine.add_pop(StateNo(3), StateNo(1), FrameNo(0), 1)?;
    Ok(machine)
}

/// Pushes of two frames into 3, from 0 and from 1. Their pops leave 4, which is one step from 3, for 1 and for 2.
fn twice_machine(alloc: Global) -> Result<Machine, NoMemory>
    ensures { IfOk result (λ m. m.states ≡ 5) }
{
    let mut machine = Machine::new(alloc, 5, 2);
    machine.add_push(StateNo(0), StateNo(3), FrameNo(0), 1)?;
    machine.add_push(StateNo(1), StateNo(3), FrameNo(1), 1)?;
    machine.add_pop(StateNo(4), StateNo(1), FrameNo(0), 1)?;
    machine.add_pop(StateNo(4), StateNo(2), FrameNo(1), 1)?;
    machine.add_flat(StateNo(3), StateNo(4), 1)?;
    Ok(machine)
}

/// One path through 400,000 states, in leaps of 150,001 round a ring.
fn ring_machine(alloc: Global) -> Result<Machine, NoMemory>
    ensures { IfOk result (λ m. m.states ≡ 400000) }
{
    let mut machine = Machine::new(alloc, 400_000, 0);
    'leaps: for leap in 0u64..399_999 {
        let from = leap * 150_001 % 400_000;
        machine.add_flat(StateNo(from), StateNo((from + 150_001) % 400_000), 1)?;
    }
    Ok(machine)
}

/// What is reached from state 0.
fn found<'a>(alloc: Global, machine: &Machine, arena: &'a Bump) -> Result<Settled<'a>, NoMemory>
    requires { 0 < machine.now.states }
{
    let index = Index::new(alloc, machine)?;
    let settled = search(alloc, machine, &index, &[StateNo(0)], arena)?;
    Ok(settled)
}

fn pot(root: Root, state: u64, cost: u64, hops: u64) -> Pot {
    Pot {
        root,
        state: StateNo(state),
        weight: Weight::known(cost, hops),
    }
}

#[test]
fn a_nest_is_found(rt: HostRuntime) -> Result<(), Fail> {
    let machine = nest_machine(rt.alloc())?;
    let arena = Bump::new(rt.alloc());
    let settled = found(rt.alloc(), &machine, &arena)?;
    let inside = Root::Entry(StateNo(2));
    let wants = [
        pot(Root::Request, 0, 0, 0),
        pot(Root::Request, 1, 3, 3),
        pot(inside, 2, 0, 0),
        pot(inside, 3, 1, 1),
    ];
    assert_eq!(rt; settled.potentials().as_slice(), wants.as_slice());
    let best = settled
        .best(&[StateNo(1)])
        .expect(&rt, "state 1 is reached");
    assert_eq!(rt; best.weight(), Weight::known(3, 3));
    let DerivForm::Nest {
        prev,
        push,
        inner,
        pop,
    } = best.form()
    else {
        return Err(Fail::new("a nest"));
    };
    assert_eq!(rt; (push, pop), (StepNo(0), StepNo(2)));
    assert_eq!(rt; (prev.last(), inner.last()), (StateNo(0), StateNo(3)));
    assert!(rt; settled.best(&[StateNo(3)]).is_none());
    assert!(rt; settled.derivation(inside, StateNo(1)).is_none());
    Ok(())
}

#[test]
fn an_inner_segment_serves_two_nests(rt: HostRuntime) -> Result<(), Fail> {
    let machine = twice_machine(rt.alloc())?;
    let arena = Bump::new(rt.alloc());
    let settled = found(rt.alloc(), &machine, &arena)?;
    let inside = Root::Entry(StateNo(3));
    let wants = [
        pot(Root::Request, 0, 0, 0),
        pot(Root::Request, 1, 3, 3),
        pot(Root::Request, 2, 6, 6),
        pot(inside, 3, 0, 0),
        pot(inside, 4, 1, 1),
    ];
    assert_eq!(rt; settled.potentials().as_slice(), wants.as_slice());
    for (targets, want) in [([2, 1], (3, 3)), ([2, 4], (6, 6)), ([1, 0], (0, 0))] {
        let best = settled.best(&[StateNo(targets[0]), StateNo(targets[1])]);
        let weight = best.map(|deriv| deriv.weight());
        assert_eq!(rt; weight, Some(Weight::known(want.0, want.1)));
    }
    Ok(())
}

#[test]
fn a_path_of_400_000_states(rt: HostRuntime) -> Result<(), Fail> {
    let machine = ring_machine(rt.alloc())?;
    let arena = Bump::new(rt.alloc());
    let settled = found(rt.alloc(), &machine, &arena)?;
    let last = StateNo(249_999);
    let weight = settled.best(&[last]).map(|deriv| deriv.weight());
    assert_eq!(rt; weight, Some(Weight::known(399_999, 399_999)));
    Ok(())
}

/// Whether the search finds what saturation finds: the same pairs with the same weights, a derivation of each weight, and the least
/// of the weights of all states under the request.
fn both_agree(alloc: Global, machine: &Machine, starts: &[StateNo]) -> Result<bool, Fail>
    requires { (a : StateNo) → Contains starts.now a → a.0 < machine.now.states }
{
    let Some(slow) = saturate(alloc, machine, starts)? else {
        return Ok(false);
    };
    let arena = Bump::new(alloc);
    let index = Index::new(alloc, machine)?;
    let settled = search(alloc, machine, &index, starts, &arena)?;
    let pots = slow.pots(alloc, machine)?;
    if settled.potentials().as_slice() != pots.as_slice() {
        return Ok(false);
    }
    for pot in &pots {
        let derived = settled.derivation(pot.root, pot.state);
        if derived.map(|deriv| deriv.weight()) != Some(pot.weight) {
            return Ok(false);
        }
        let best = settled.best(&[pot.state]);
        if best.map(|deriv| deriv.weight()) != slow.weight(Root::Request, pot.state) {
            return Ok(false);
        }
    }
    Ok(true)
}

#[test]
fn search_and_saturation_agree(rt: HostRuntime) -> Result<(), Fail> {
    let alloc = rt.alloc();
    let most = 18_446_744_073_709_551_615;
    let cases: [(&str, u64, u64, &[Small]); 15] = [
        ("no steps", 2, 0, &[]),
        (
            "a loop of no cost",
            3,
            1,
            &[(Flat, 0, 1, 0, 0), (Flat, 1, 0, 0, 0), (Flat, 1, 2, 0, 0)],
        ),
        (
            "pops that are not reached",
            3,
            1,
            &[(Pop, 0, 1, 0, 1), (Pop, 2, 1, 0, 1)],
        ),
        (
            "another frame",
            4,
            2,
            &[(Push, 0, 2, 0, 1), (Flat, 2, 3, 0, 1), (Pop, 3, 1, 1, 1)],
        ),
        (
            "an empty inner part",
            3,
            1,
            &[(Push, 0, 2, 0, 1), (Pop, 2, 1, 0, 1)],
        ),
        (
            "a stack that grows",
            2,
            1,
            &[(Push, 0, 0, 0, 1), (Flat, 0, 1, 0, 1), (Pop, 1, 1, 0, 0)],
        ),
        (
            "a cost of 2^64 - 1",
            3,
            1,
            &[(Flat, 0, 1, 0, most), (Flat, 0, 2, 0, 0)],
        ),
        (
            "a cost of 2^64",
            4,
            1,
            &[
                (Flat, 0, 1, 0, most),
                (Flat, 1, 2, 0, 1),
                (Flat, 2, 3, 0, 5),
            ],
        ),
        (
            "past inside a nest",
            4,
            1,
            &[
                (Push, 0, 2, 0, 1),
                (Flat, 2, 3, 0, most),
                (Pop, 3, 1, 0, 0),
                (Flat, 0, 1, 0, most),
            ],
        ),
        (
            "one root entered twice",
            5,
            2,
            &[
                (Push, 0, 3, 0, 1),
                (Push, 1, 3, 1, 1),
                (Pop, 4, 1, 0, 1),
                (Pop, 4, 2, 1, 1),
                (Flat, 3, 4, 0, 1),
            ],
        ),
        (
            "a later way in that weighs more",
            6,
            1,
            &[
                (Push, 0, 2, 0, 1),
                (Flat, 0, 1, 0, 1),
                (Push, 1, 2, 0, 1),
                (Flat, 2, 3, 0, 1),
                (Pop, 2, 4, 0, 1),
                (Pop, 3, 5, 0, 1),
            ],
        ),
        (
            "a later way in that weighs less",
            6,
            1,
            &[
                (Push, 0, 2, 0, 9),
                (Flat, 0, 1, 0, 1),
                (Push, 1, 2, 0, 1),
                (Flat, 2, 3, 0, 1),
                (Pop, 2, 4, 0, 1),
                (Pop, 3, 5, 0, 1),
            ],
        ),
        (
            "two ways in from each root of a cycle",
            6,
            2,
            &[
                (Push, 0, 1, 0, 1),
                (Flat, 1, 2, 0, 1),
                (Push, 1, 2, 1, 1),
                (Push, 2, 1, 0, 1),
                (Push, 1, 1, 0, 0),
                (Flat, 2, 3, 0, 1),
                (Push, 3, 2, 1, 0),
                (Pop, 3, 4, 1, 0),
                (Pop, 4, 3, 0, 1),
                (Flat, 4, 5, 0, 1),
                (Pop, 5, 0, 0, 1),
            ],
        ),
        (
            "four deep",
            10,
            4,
            &[
                (Push, 0, 1, 0, 1),
                (Push, 1, 2, 1, 1),
                (Push, 2, 3, 2, 1),
                (Push, 3, 4, 3, 1),
                (Flat, 4, 5, 0, 1),
                (Pop, 5, 6, 3, 1),
                (Pop, 6, 7, 2, 1),
                (Pop, 7, 8, 1, 1),
                (Pop, 8, 9, 0, 1),
            ],
        ),
        (
            "a cheaper inner part that comes late",
            6,
            1,
            &[
                (Push, 0, 2, 0, 0),
                (Flat, 2, 3, 0, 9),
                (Flat, 2, 4, 0, 1),
                (Flat, 4, 5, 0, 1),
                (Flat, 5, 3, 0, 1),
                (Pop, 3, 1, 0, 0),
                (Flat, 1, 0, 0, 0),
            ],
        ),
    ];
    for (name, states, frames, steps) in cases {
        let machine = small_machine(alloc, states, frames, steps)?;
        if machine.states() >= 2 {
            assert!(rt; both_agree(alloc, &machine, &[StateNo(0)])?, "{name}");
            assert!(rt;
                both_agree(alloc, &machine, &[StateNo(1), StateNo(0)])?,
                "{name}, from two starts"
            );
        }
    }
    Ok(())
}
