ghost use Rattle.std.specs.Prelude.{◌↔◌, ◌<◌, IsTrue, length};
ghost use Rattle.circuit_spec.specs.Network.{ports};
ghost use Rattle.layer_check.specs.Comparing.{differs_from};
ghost use Rattle.layer_check.specs.Classes.{IsFirstMember, IsMemberThat};

use crate::comparing::{Reference, differs};
use ml_base::PortNo;
use nml_inventory::Inventory;

/// Whether a port is of the class, and differs from the reference.
fn is_other_member(inventory: &Inventory, class: PortNo, reference: Reference, port: PortNo) -> bool
    requires { port.0 < length (ports inventory.now) }
    ensures { IsTrue result ↔ IsMemberThat inventory.now (differs_from reference.entry) class.0 port.0 }
{
    inventory.is_merged();
    inventory.class(port) == class && differs(inventory, port, reference)
}

/// The first port of the class that differs from the reference.
pub fn first_other_member(
    inventory: &Inventory,
    class: PortNo,
    reference: Reference,
) -> Option<PortNo>
    ensures { IsFirstMember inventory.now (differs_from reference.entry) class.0 result }
{
    for number in 0..inventory.ports() {
        if is_other_member(inventory, class, reference, PortNo(number)) {
            return Some(PortNo(number));
        }
    }
    None
}
