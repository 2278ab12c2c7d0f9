ghost use Rattle.std.specs.Prelude.{IfSome};
ghost use Rattle.deriv_arena.specs.Derivation.{IsOver};

use crate::counts::Counts;
use crate::shapes::{Shape, task_of};
use adapt_machine::Machine;
use anyhow::Result;
use bumpalo::Bump;
use deriv_arena::Deriv;
use knuth_search::search;
use ml_base::Weight;
use route_unfold::Unfold;
use segment_grammar::Index;
use std::alloc::Global;

/// The most hops that are unfolded.
const HOP_LIMIT: u64 = 16_777_216;

/// The steps' numbers as one number.
fn digest(steps: Unfold) -> (u64, u64) {
    let mut count = 0u64;
    let mut sum = 0u64;
    for step in steps {
        count = count.wrapping_add(1);
        sum = sum.wrapping_mul(31).wrapping_add(step.0);
    }
    (count, sum)
}

fn report_best<R: Print>(
    rt: &R,
    alloc: Global,
    machine: &Machine,
    best: Option<&Deriv<'_>>,
) -> Result<()>
    requires over { IfSome best (λ d. IsOver machine.now.steps d.now) }
{
    let Some(best) = best else {
        println!(rt; "best none")?;
        return Ok(());
    };
    match best.weight() {
        Weight::Past => println!(rt; "best past")?,
        Weight::Known { cost, hops } if hops > HOP_LIMIT => println!(rt;
            "best {cost} {hops} long"
        )?,
        Weight::Known { cost, hops } => {
            let (count, sum) = digest(Unfold::new(alloc, machine, best, HOP_LIMIT)?);
            println!(rt; "best {cost} {hops} unfolded {count} {sum}")?;
        }
    }
    Ok(())
}

/// Searches the machine of the shape, and prints what was found.
pub fn report<R: Print>(rt: &R, alloc: Global, shape: Shape) -> Result<()> {
    let task = task_of(alloc, shape)?;
    let machine = &task.machine;
    println!(rt;
        "states {} frames {} steps {}",
        machine.states(),
        machine.frames(),
        machine.steps()
    )?;
    if task.start.0 >= machine.states() {
        return Ok(());
    }
    let arena = Bump::new(alloc);
    let index = Index::new(alloc, machine)?;
    let settled = search(alloc, machine, &index, &[task.start], &arena)?;
    let pots = settled.potentials().as_slice();
    let counts = Counts::of(pots);
    println!(rt;
        "pairs {} past {} costs {} hops {}",
        pots.len(),
        counts.past,
        counts.costs,
        counts.hops
    )?;
    report_best(rt, alloc, machine, settled.best(&[task.target]))
}
