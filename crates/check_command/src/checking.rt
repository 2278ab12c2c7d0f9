// The reply to `check`.
ghost use Rattle.std.specs.Prelude.{◌≡◌, IfOk};
ghost use Rattle.circuit_spec.specs.Faults.{IsSound};
ghost use Rattle.check_command.specs.Checking.{IsJudged, status_of_verdict};

use crate::lines::make_verdict_line;
use cert_check::judge;
use ml_base::NoMemory;
use nml_inventory::Inventory;
use replies::{Reply, Status, one_line};
use std::alloc::Global;
use verdict::Verdict;

fn status_of_verdict(verdict: &Verdict) -> Status
    ensures { result ≡ status_of_verdict verdict.now }
{
    match verdict {
        Verdict::Valid { .. } => Status::Done,
        Verdict::NotValid { .. } => Status::Fails,
    }
}

/// The reply that tells the verdict on a document.
pub(crate) fn judged(alloc: Global, inventory: &Inventory, bytes: &[u8]) -> Result<Reply, NoMemory>
    requires { IsSound inventory.now }
    ensures { IfOk result (IsJudged inventory.now bytes.now) }
{
    let verdict = judge(alloc, inventory, bytes)?;
    let line = make_verdict_line(alloc, &verdict)?;
    let reply = one_line(alloc, status_of_verdict(&verdict), line)?;
    Ok(reply)
}
