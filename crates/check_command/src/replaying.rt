// The reply to `replay`.
ghost use Rattle.std.specs.Prelude.{◌≡◌, IfOk};
ghost use Rattle.circuit_spec.specs.Faults.{IsSound};
ghost use Rattle.check_command.specs.Replaying.{IsCarriedOut, status_of_replay};

use crate::lines::make_replay_line;
use ml_base::NoMemory;
use nml_inventory::Inventory;
use replies::{Reply, Status, one_line};
use rule_replay::{Replayed, replay};
use std::alloc::Global;

fn status_of_replay(replayed: &Replayed) -> Status
    ensures { result ≡ status_of_replay replayed.now }
{
    match replayed {
        Replayed::Carried { .. } => Status::Done,
        Replayed::NotCarried { .. } => Status::Fails,
    }
}

/// The reply that tells what the rules of a document do.
pub(crate) fn carried_out(
    alloc: Global,
    inventory: &Inventory,
    bytes: &[u8],
) -> Result<Reply, NoMemory>
    requires { IsSound inventory.now }
    ensures { IfOk result (IsCarriedOut inventory.now bytes.now) }
{
    let replayed = replay(alloc, inventory, bytes)?;
    let line = make_replay_line(alloc, &replayed)?;
    let reply = one_line(alloc, status_of_replay(&replayed), line)?;
    Ok(reply)
}
