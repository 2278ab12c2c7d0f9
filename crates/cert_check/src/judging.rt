ghost use Rattle.std.specs.Prelude.{IfOk};
ghost use Rattle.circuit_spec.specs.Faults.{IsSound};
ghost use Rattle.verdict.specs.Verdicts.{IsVerdict};

use crate::verifying::verify;
use answer_text::{TextFault, read};
use ml_base::NoMemory;
use nml_inventory::Inventory;
use std::alloc::Global;
use verdict::{CheckFault, Rule, Verdict};

/// The verdict on the bytes of a document: that it is the certificate of an outcome, or which rule fails first, and at which line.
pub fn judge(alloc: Global, inventory: &Inventory, bytes: &[u8]) -> Result<Verdict, NoMemory>
    requires { IsSound inventory.now }
    ensures { IfOk result (IsVerdict inventory.now bytes.now) }
{
    let answer = match read(alloc, bytes) {
        Ok(answer) => answer,
        Err(TextFault::Line { line }) => {
            return Ok(Verdict::NotValid {
                line,
                rule: Rule::Grammar,
            });
        }
        Err(TextFault::NoMemory) => return Err(NoMemory),
    };
    match verify(alloc, inventory, &answer) {
        Ok(outcome) => Ok(Verdict::Valid { outcome }),
        Err(CheckFault::NotValid { line, rule }) => Ok(Verdict::NotValid { line, rule }),
        Err(CheckFault::NoMemory) => Err(NoMemory),
    }
}
