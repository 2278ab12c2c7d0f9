ghost use Rattle.std.specs.Prelude.{IfOk};
ghost use Rattle.circuit_spec.specs.Faults.{IsKnown, IsSound};
ghost use Rattle.machine_build.specs.Built.{IsBuilt};

use crate::adding::moves_of;
use crate::allowed::allowed;
use crate::built::Built;
use crate::frames::count_frames;
use adapt_machine::Machine;
use circuit_spec::Request;
use indexmap::IndexSet;
use kept_table::KeptTable;
use ml_base::NoMemory;
use nml_inventory::Inventory;
use open_places::open_places;
use std::alloc::Global;

/// The machine of a sound topology over a table of labels, for a request that it knows.
pub fn build(
    alloc: Global,
    inventory: &Inventory,
    kept: &KeptTable,
    request: &Request,
) -> Result<Built, NoMemory>
    requires sound { IsSound inventory.now }
    requires known { IsKnown inventory.now request.now }
    ensures { IfOk result (IsBuilt inventory.now kept.now request.now) }
{
    inventory.is_merged();
    let places = open_places(alloc, inventory, kept)?;
    let mut frames = IndexSet::with_hasher(alloc, inventory.hashing());
    let moves = moves_of(alloc, inventory, &places, &mut frames)?;
    let (steps, sites) = moves.into_parts();
    let machine = Machine::of_steps(places.len(), count_frames(&frames), steps);
    let starts = allowed(alloc, inventory, &places, &request.from, request.from_wish)?;
    let targets = allowed(alloc, inventory, &places, &request.to, request.to_wish)?;
    Ok(Built {
        machine,
        places,
        sites,
        starts,
        targets,
    })
}
