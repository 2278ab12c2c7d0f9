ghost use Rattle.std.specs.Prelude.{◌≡◌, ◌↔◌, ◌++◌, IsTrue, IfOk, map};
ghost use Rattle.k_cheapest.specs.Givens.{steps_of, given_steps};
ghost use Rattle.k_cheapest.specs.KLists.{numbers_of, IsListed};
ghost use Rattle.k_cheapest.specs.Searching.{Lists};

use crate::found::{KSteps, KWalk, KWalkList};
use crate::given::Tail;
use crate::item::Item;
use ml_base::{NoMemory, StepNo};
use std::alloc::Global;

/// The steps of a tail.
fn collect<'a>(alloc: Global, tail: &'a Tail<'a>) -> Result<KSteps, NoMemory>
    ensures { IfOk result (λ steps. numbers_of steps ≡ steps_of tail.now) }
{
    let mut steps = KSteps::new(alloc);
    let mut left = tail;
    while let Tail::Step { rest, step } = left {
        steps.push(*step)?;
        left = *rest;
    }
    Ok(steps)
}

fn is_same(one: &[StepNo], other: &[StepNo]) -> bool
    ensures { IsTrue result ↔ (one.now ≡ other.now) }
{
    if one.len() != other.len() {
        return false;
    }
    for place in 0..one.len() {
        if one[place] != other[place] {
            return false;
        }
    }
    true
}

/// Whether one of the walks has the steps.
fn is_listed(walks: &[KWalk], steps: &KSteps) -> bool
    ensures { IsTrue result ↔ IsListed walks.now (numbers_of steps.now) }
{
    for walk in walks {
        if is_same(walk.steps.as_slice(), steps.as_slice()) {
            return true;
        }
    }
    false
}

/// Lists the item's only walk, unless it is listed.
pub fn list<'a>(alloc: Global, walks: &mut KWalkList, item: Item<'a>) -> Result<(), NoMemory>
    ensures { IfOk result (λ _. Lists (given_steps item.entry.given) item.entry walks.old walks.new) }
{
    let steps = collect(alloc, item.given.tail)?;
    if is_listed(walks.as_slice(), &steps) {
        return Ok(());
    }
    let weight = item.weight;
    walks.push(KWalk { weight, steps })?;
    Ok(())
}
