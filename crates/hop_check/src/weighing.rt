ghost use Rattle.std.specs.Prelude.{◌≡◌, ◌↔◌, ◌<◌, ◌≤◌, ◌^◌, IsTrue, MatchOption, sum_by};
ghost use Rattle.circuit_spec.specs.Steps.{cost_of, cost_of_element, weight_of};
ghost use Rattle.answer_spec.specs.Certificate.{IsWeighed};
ghost use Rattle.verdict.specs.declared.rules.Rule.TheVariants as rule;
ghost use Rattle.hop_check.specs.Deciding.{Decides};

use answer_spec::Answer;
use circuit_spec::{HOP_LIMIT, Hop, HopList, Outcome};
use nml_elements::Element;
use nml_inventory::Inventory;
use verdict::{CheckFault, Rule};

fn element_cost(element: &Element) -> u64
    ensures { result ≡ cost_of_element element.now }
{
    match element {
        Element::Link(link) => link.cost,
        Element::Switching(service) => service.cost,
        Element::Adaptation(service) | Element::Deadaptation(service) => service.cost,
        Element::Conversion(service) => service.cost,
        Element::Node(_) | Element::Port(_) => 0,
    }
}

/// The cost of the element of a hop, 0 where there is none.
fn hop_cost(inventory: &Inventory, hop: &Hop) -> u64
    ensures { result ≡ cost_of inventory.now hop.now }
{
    let Some(number) = inventory.element_no(hop.element.text()) else {
        return 0;
    };
    let Some(element) = inventory.element(number) else {
        unreachable!()
    };
    element_cost(element)
}

/// The costs of the hops, unless they are 2^64 or more.
fn total_cost(inventory: &Inventory, hops: &[Hop]) -> Option<u64>
    ensures { MatchOption result (2 ^ 64 ≤ sum_by (cost_of inventory.now) hops.now) (λ cost. cost ≡ sum_by (cost_of inventory.now) hops.now) }
{
    let mut total: u64 = 0;
    for hop in hops {
        let Some(sum) = total.checked_add(hop_cost(inventory, hop)) else {
            return None;
        };
        total = sum;
    }
    Some(total)
}

/// Whether the hops have this cost and this number, within the hop limit.
fn have_weight(inventory: &Inventory, list: &HopList, cost: u64, hops: u64) -> bool
    ensures { IsTrue result ↔ ((weight_of inventory.now list.now ≡ record { cost = cost; hops = hops }) × (hops ≤ HOP_LIMIT)) }
{
    let Some(total) = total_cost(inventory, list.as_slice()) else {
        return false;
    };
    total == cost && (list.len() == hops && hops <= HOP_LIMIT)
}

/// Whether the stated weight is that of the hops, and the limit is kept.
fn is_weighed(inventory: &Inventory, answer: &Answer) -> bool
    ensures { IsTrue result ↔ IsWeighed inventory.now answer.now.outcome answer.now.hops }
{
    match answer.outcome {
        Outcome::Found { cost, hops } => have_weight(inventory, &answer.hops, cost, hops),
        Outcome::Long { hops, .. } => HOP_LIMIT < hops,
        Outcome::NoWalk | Outcome::Past => true,
    }
}

/// The stated weight is that of the hops, and the limit is kept.
pub fn check_weight(inventory: &Inventory, answer: &Answer) -> Result<(), CheckFault>
    ensures { Decides inventory.now answer.now rule.Weighed result }
{
    if is_weighed(inventory, answer) {
        return Ok(());
    }
    Err(CheckFault::NotValid {
        line: 3,
        rule: Rule::Weighed,
    })
}
