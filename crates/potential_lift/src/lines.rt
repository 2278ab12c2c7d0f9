ghost use Rattle.std.specs.Prelude.{IfOk, length};
ghost use Rattle.circuit_spec.specs.declared.hops.Request.{Request as TheRequest};
ghost use Rattle.circuit_spec.specs.Network.{Topology};
ghost use Rattle.answer_spec.specs.Potentials.{ArePotentials, root_place};
ghost use Rattle.knuth_search.specs.Derived.{IsPotWithin, IsRootWithin};
ghost use Rattle.knuth_search.specs.Settled.{ArePotentials as AreMachinePotentials};
ghost use Rattle.machine_lift.specs.Lift.{IsMachineOf, IsRootAt};
ghost use Rattle.potential_lift.specs.Lines.{AddsLine, AreLinesOf, AreWithin};

use answer_spec::{PotLine, PotList, RootName};
use machine_build::Built;
use ml_base::{NoMemory, Root};
use segment_grammar::{Pot, Potentials};
use std::alloc::Global;

/// The root of the network at a root of the machine.
fn root_of(built: &Built, root: Root) -> Result<RootName, NoMemory>
    requires { IsRootWithin (length built.now.places) root }
    ensures { IfOk result (λ name. IsRootAt built.now root (root_place name)) }
{
    match root {
        Root::Request => Ok(RootName::Request),
        Root::Entry(state) => {
            let place = built.place(state)?;
            Ok(RootName::Entry(place))
        }
    }
}

/// Adds the line of a pair of the machine.
fn add_line(built: &Built, lines: &mut PotList, pot: &Pot) -> Result<(), NoMemory>
    requires { IsPotWithin (length built.now.places) pot.now }
    ensures { IfOk result (λ _. AddsLine built.now pot.now lines.old lines.new) }
{
    let root = root_of(built, pot.root)?;
    let place = built.place(pot.state)?;
    lines.push(PotLine {
        root,
        place,
        weight: pot.weight,
    })?;
    Ok(())
}

/// A line for each pair, in the same order.
fn lines_of(alloc: Global, built: &Built, pots: &[Pot]) -> Result<PotList, NoMemory>
    requires { AreWithin built.now pots.now }
    ensures { IfOk result (AreLinesOf built.now pots.now) }
{
    let mut lines = PotList::new(alloc);
    for pot in pots {
        add_line(built, &mut lines, pot)?;
    }
    Ok(lines)
}

/// The potentials of a request, from those of its machine, in the same order.
pub fn potentials_of(alloc: Global, built: &Built, pots: &Potentials) -> Result<PotList, NoMemory>
    requires { AreWithin built.now pots.now }
    ensures lines { IfOk result (AreLinesOf built.now pots.now) }
    ensures potentials { (T : Topology) (r : TheRequest) → IsMachineOf T r built.now → AreMachinePotentials built.now.machine.steps built.now.starts pots.now → IfOk result (ArePotentials T r) }
{
    lines_of(alloc, built, pots.as_slice())
}
