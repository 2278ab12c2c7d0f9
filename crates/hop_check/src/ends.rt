ghost use Rattle.std.specs.Prelude.{◌≡◌, ◌↔◌, IsTrue, MatchOption};
ghost use Rattle.nml_elements.specs.Labels.{is_among};
ghost use Rattle.circuit_spec.specs.Faults.{IsKnownEnd, IsSound};
ghost use Rattle.circuit_spec.specs.Network.{IsClass, Port};
ghost use Rattle.verdict.specs.declared.rules.Rule.TheVariants as rule;
ghost use Rattle.hop_check.specs.Deciding.{Decides, IsClassNo};

use answer_spec::Answer;
use ml_base::{Id, PortNo, Wish};
use nml_elements::Labels;
use nml_inventory::Inventory;
use verdict::{CheckFault, Rule};

/// The class of the port of an id.
pub fn class_of(inventory: &Inventory, id: &Id) -> Option<PortNo>
    ensures { MatchOption result ((class : Port) → ¬ IsClass inventory.now id.now class) (λ class. IsClassNo inventory.now id.now class.0) }
{
    match inventory.port(id.text()) {
        Some(port) => Some(inventory.class(port)),
        None => None,
    }
}

/// Whether the label is among the labels.
fn has_label(labels: &Labels, label: u32) -> bool
    ensures { result ≡ is_among labels.now label }
{
    match labels {
        Labels::Unlabelled => false,
        Labels::Of { set, .. } => set.has(label),
    }
}

/// Whether the id is that of a port whose class has the label, where one is stated.
fn is_known_end(inventory: &Inventory, id: &Id, wish: Wish) -> bool
    requires { IsSound inventory.now }
    ensures { IsTrue result ↔ IsKnownEnd inventory.now id.now wish }
{
    let Some(class) = class_of(inventory, id) else {
        return false;
    };
    match wish {
        Wish::Any => true,
        Wish::Value(label) => has_label(inventory.labels_of(class), label),
    }
}

/// The ends are ports, and their stated labels are there.
pub fn check_ends(inventory: &Inventory, answer: &Answer) -> Result<(), CheckFault>
    requires { IsSound inventory.now }
    ensures { Decides inventory.now answer.now rule.Ends result }
{
    let request = &answer.request;
    let from = is_known_end(inventory, &request.from, request.from_wish);
    if from && is_known_end(inventory, &request.to, request.to_wish) {
        return Ok(());
    }
    Err(CheckFault::NotValid {
        line: 2,
        rule: Rule::Ends,
    })
}
