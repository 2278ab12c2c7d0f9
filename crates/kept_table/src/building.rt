ghost use Rattle.std.specs.Prelude.{IfOk};
ghost use Rattle.circuit_spec.specs.Faults.{IsKnown, IsSound};
ghost use Rattle.kept_table.specs.Rows.{AreRowsOf, IsRowOf, IsTableOf};
ghost use Rattle.kept_table.specs.Table.{IsKeptTable};

use crate::gathered::{Gathered, TypeTests};
use crate::gathering::gathered;
use crate::table::{KeptRow, KeptTable};
use circuit_spec::Request;
use label_atoms::Kept;
use ml_base::NoMemory;
use nml_inventory::Inventory;
use std::alloc::Global;

/// The kept labels of each label type of a sound topology, for a request that it knows. Its label types are those of the classes
/// and the links.
///
/// Errors: want of memory.
pub fn kept_of(
    alloc: Global,
    inventory: &Inventory,
    request: &Request,
) -> Result<KeptTable, NoMemory>
    requires sound { IsSound inventory.now }
    requires known { IsKnown inventory.now request.now }
    ensures { IfOk result (IsKeptTable inventory.now request.now) }
{
    let gathered = gathered(alloc, inventory, request)?;
    table_of(alloc, gathered)
}

/// The kept labels of all that is gathered.
pub(crate) fn table_of(alloc: Global, gathered: Gathered) -> Result<KeptTable, NoMemory>
    ensures { IfOk result (IsTableOf gathered) }
{
    let rows = rows_of(alloc, gathered.tests())?;
    Ok(KeptTable::new(gathered.into_types(), rows))
}

/// The kept labels of what is gathered of each label type.
fn rows_of(alloc: Global, all: &[TypeTests]) -> Result<Vec<KeptRow>, NoMemory>
    ensures { IfOk result (λ rows. AreRowsOf all.now rows.items) }
{
    let mut rows = Vec::new(alloc);
    for tests in all {
        let row = row_of(alloc, tests)?;
        let Ok(()) = rows.push(row) else {
            return Err(NoMemory);
        };
    }
    Ok(rows)
}

fn row_of(alloc: Global, tests: &TypeTests) -> Result<KeptRow, NoMemory>
    ensures { IfOk result (IsRowOf tests.now) }
{
    let labeltype = tests.labeltype.share()?;
    let kept = Kept::new(alloc, tests.sets.as_slice(), tests.singles.as_slice())?;
    Ok(KeptRow { labeltype, kept })
}
