ghost use Rattle.std.specs.Prelude.{◌≡◌, IsTrue, IfOk};
ghost use Rattle.segment_grammar.specs.Pots.{IsAboveLast};
ghost use Rattle.pair_check.specs.Rules.{ArePairsWithin};

use crate::noted::note_root;
use crate::ways::Ways;
use crate::{PairFault, check_pairs, least_listed};
use adapt_machine::{Machine, MachineKind, MachineStep};
use ml_base::{FrameNo, NoMemory, Root, StateNo, StepNo, Weight};
use segment_grammar::{Pot, Potentials};
use std::alloc::Global;
use std::test::Fail;

/// A push from 0 into 2, a flat step from 2 to 3, and a pop from 3 to 1, each of cost 1.
fn nest_machine(alloc: Global) -> Result<Machine, NoMemory>
    ensures { IfOk result (λ m. m.states ≡ 4) }
{
    let mut machine = Machine::new(alloc, 4, 1);
    machine.add_push(StateNo(0), StateNo(2), FrameNo(0), 1)?;
    machine.add_flat(StateNo(2), StateNo(3), 1)?;
    machine.add_pop(StateNo(3), StateNo(1), FrameNo(0), 1)?;
    Ok(machine)
}

/// Whether the pair stands above the last one, or is the first.
fn is_above(pots: &Potentials, pair: Pot) -> bool
    ensures { IsTrue result → IsAboveLast pots.now pair.root pair.state }
{
    let Some(last) = pots.as_slice().last() else {
        return true;
    };
    (last.root, last.state) < (pair.root, pair.state)
}

/// Lists the pair, if it is of one of four states and stands above the last one.
fn list(pots: &mut Potentials, pair: Pot) -> Result<(), NoMemory>
    requires { ArePairsWithin 4 pots.old }
    ensures { IfOk result (λ _. ArePairsWithin 4 pots.new) }
{
    if pair.state.0 >= 4 {
        return Ok(());
    }
    if !is_above(pots, pair) {
        return Ok(());
    }
    pots.push(pair)?;
    Ok(())
}

fn listed(alloc: Global, pairs: &[Pot]) -> Result<Potentials, NoMemory>
    ensures { IfOk result (ArePairsWithin 4) }
{
    let mut pots = Potentials::new(alloc);
    for pair in pairs {
        list(&mut pots, *pair)?;
    }
    Ok(pots)
}

/// Whether the pairs bound the walks of the machine from state 0.
fn check(alloc: Global, pairs: &[Pot]) -> Result<(), PairFault> {
    let machine = nest_machine(alloc)?;
    let pots = listed(alloc, pairs)?;
    check_pairs(alloc, &machine, &[StateNo(0)], &pots)
}

fn pot(root: Root, state: u64, cost: u64, hops: u64) -> Pot {
    Pot {
        root,
        state: StateNo(state),
        weight: Weight::known(cost, hops),
    }
}

#[test]
fn the_first_rule_that_fails_is_told(rt: HostRuntime) -> Result<(), Fail> {
    let start = pot(Root::Request, 0, 0, 0);
    let out = pot(Root::Request, 1, 3, 3);
    let entered = pot(Root::Entry(StateNo(2)), 2, 0, 0);
    let inside = pot(Root::Entry(StateNo(2)), 3, 1, 1);
    assert_eq!(rt; check(rt.alloc(), &[start, out, entered, inside]), Ok(()));
    // Less than the least is a bound too.
    let less = pot(Root::Request, 1, 0, 0);
    assert_eq!(rt; check(rt.alloc(), &[start, less, entered, inside]), Ok(()));
    assert_eq!(rt;
        check(rt.alloc(), &[out, entered, inside]),
        Err(PairFault::Starts)
    );
    assert_eq!(rt;
        check(rt.alloc(), &[start, out, inside]),
        Err(PairFault::Roots { place: 2 })
    );
    let more = pot(Root::Entry(StateNo(2)), 3, 1, 2);
    assert_eq!(rt;
        check(rt.alloc(), &[start, out, entered, more]),
        Err(PairFault::Extends { place: 2 })
    );
    assert_eq!(rt;
        check(rt.alloc(), &[start, out]),
        Err(PairFault::Opens { place: 0 })
    );
    let far = pot(Root::Request, 1, 4, 3);
    assert_eq!(rt;
        check(rt.alloc(), &[start, far, entered, inside]),
        Err(PairFault::Nests { place: 0 })
    );
    Ok(())
}

#[test]
fn the_least_weight_is_found(rt: HostRuntime) -> Result<(), Fail> {
    let pairs = [pot(Root::Request, 0, 4, 1), pot(Root::Request, 1, 3, 3)];
    let pots = listed(rt.alloc(), &pairs)?;
    let both = [StateNo(0), StateNo(1)];
    assert_eq!(rt; least_listed(&pots, &both), Some(Weight::known(3, 3)));
    assert_eq!(rt; least_listed(&pots, &[StateNo(2)]), None);
    Ok(())
}

#[test]
fn the_places_of_one_root_are_noted(rt: HostRuntime) -> Result<(), Fail> {
    let entered = Root::Entry(StateNo(1));
    let pairs = [
        pot(Root::Request, 0, 0, 0),
        pot(Root::Request, 3, 0, 0),
        pot(entered, 1, 0, 0),
        pot(entered, 2, 0, 0),
    ];
    let mut places = [9, 9, 9, 9];
    note_root(&mut places, &pairs, 0);
    assert_eq!(rt; places, [0, 9, 9, 1]);
    // Not the first pair of its root: its root is noted already.
    note_root(&mut places, &pairs, 1);
    assert_eq!(rt; places, [0, 9, 9, 1]);
    note_root(&mut places, &pairs, 2);
    assert_eq!(rt; places, [0, 2, 3, 1]);
    Ok(())
}

/// A push into state 2 with the frame.
fn push_into(from: u64, frame: u64, cost: u64) -> MachineStep {
    MachineStep {
        kind: MachineKind::Push,
        from: StateNo(from),
        to: StateNo(2),
        frame: FrameNo(frame),
        cost,
    }
}

#[test]
fn a_later_way_that_weighs_no_less_is_passed_over(rt: HostRuntime) -> Result<(), Fail> {
    let machine = nest_machine(rt.alloc())?;
    let start = pot(Root::Request, 0, 0, 0);
    let light = pot(Root::Request, 1, 0, 0);
    let entered = pot(Root::Entry(StateNo(2)), 1, 0, 0);
    let pots = listed(rt.alloc(), &[start, light])?;
    let mut ways = Ways::new(rt.alloc());
    let same = push_into(1, 0, 1);
    assert_eq!(rt; ways.overtake(&machine, &pots, 1, light, same), false);
    ways.note(0, StepNo(0), push_into(0, 0, 1))?;
    assert_eq!(rt; ways.overtake(&machine, &pots, 1, light, same), true);
    assert_eq!(rt;
        ways.overtake(&machine, &pots, 1, light, push_into(1, 0, 0)),
        false
    );
    assert_eq!(rt;
        ways.overtake(&machine, &pots, 1, light, push_into(1, 1, 1)),
        false
    );
    assert_eq!(rt; ways.overtake(&machine, &pots, 1, entered, same), false);
    // What is noted of a pair says nothing of the pair itself.
    assert_eq!(rt;
        ways.overtake(&machine, &pots, 0, start, push_into(0, 0, 1)),
        false
    );
    Ok(())
}
