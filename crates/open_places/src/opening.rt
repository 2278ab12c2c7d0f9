ghost use Rattle.std.specs.Prelude.{◌↔◌, IfOk};
ghost use Rattle.std.specs.List.{Contains};
ghost use Rattle.circuit_spec.specs.declared.hops.PlaceName.{PlaceName as Place};
ghost use Rattle.circuit_spec.specs.Faults.{IsSound};
ghost use Rattle.open_places.specs.Places.{ArePlaces, IsRising};

use crate::gathering::gather;
use crate::places::Places;
use crate::spanning::spans_of;
use circuit_spec::PlaceName;
use kept_table::KeptTable;
use ml_base::NoMemory;
use nml_inventory::Inventory;
use std::alloc::Global;

/// The open places of a sound topology whose label, if any, is in the table.
pub fn open_places(
    alloc: Global,
    inventory: &Inventory,
    kept: &KeptTable,
) -> Result<Places, NoMemory>
    requires { IsSound inventory.now }
    ensures { IfOk result (ArePlaces inventory.now kept.now) }
{
    inventory.is_merged();
    let places = in_order(gather(alloc, inventory, kept)?)?;
    let spans = spans_of(alloc, inventory, places.as_slice())?;
    Ok(Places::new(places, spans))
}

/// The places in their order, each once.
pub fn in_order(mut places: Vec<PlaceName>) -> Result<Vec<PlaceName>, NoMemory>
    ensures rise { IfOk result (λ sorted. IsRising sorted.items) }
    ensures same { IfOk result (λ sorted. (place : Place) → Contains sorted.items place ↔ Contains places.items place) }
{
    let Ok(()) = places.sort() else {
        return Err(NoMemory);
    };
    places.dedup();
    Ok(places)
}
