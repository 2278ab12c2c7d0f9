// What is there of a domain throughout a window.
ghost use Rattle.std.specs.Prelude.{◌≡◌, ◌++◌, ◌∷◌, [], IfOk, OnOk, filter};
ghost use Rattle.nml_elements.specs.During.{during, stays};

use crate::lifetimes::exists_throughout;
use crate::{Domain, ElementList, Entry, Window};
use ml_base::{Id, NoMemory};
use std::alloc::Global;

/// Puts the entry at the end, if it stays.
fn add(
    entries: &mut ElementList,
    alloc: Global,
    window: &Window,
    entry: &Entry,
) -> Result<(), NoMemory>
    ensures { OnOk result (entries.new ≡ entries.old ++ filter (stays window.now) (entry.now ∷ [])) }
{
    if !exists_throughout(window, &entry.lifetime) {
        return Ok(());
    }
    let shared = entry.share(alloc)?;
    entries.push(shared)?;
    Ok(())
}

fn staying(alloc: Global, window: &Window, entries: &[Entry]) -> Result<ElementList, NoMemory>
    ensures { IfOk result (λ staying. staying ≡ filter (stays window.now) entries.now) }
{
    let mut staying = ElementList::new(alloc);
    for entry in entries {
        add(&mut staying, alloc, window, entry)?;
    }
    Ok(staying)
}

fn encoding_of(domain: &Domain) -> Result<Option<Id>, NoMemory>
    ensures { IfOk result (λ encoding. encoding ≡ domain.now.encoding) }
{
    match &domain.encoding {
        Some(encoding) => Ok(Some(encoding.share()?)),
        None => Ok(None),
    }
}

/// The domain without the entries whose elements do not exist throughout the window, over the same ids. The
/// others keep their numbers and their order.
///
/// Errors: `NoMemory` where memory ran out.
pub fn during(alloc: Global, domain: &Domain, window: &Window) -> Result<Domain, NoMemory>
    ensures { IfOk result (λ there. there ≡ during window.now domain.now) }
{
    Ok(Domain {
        id: domain.id.share()?,
        encoding: encoding_of(domain)?,
        elements: staying(alloc, window, domain.elements.as_slice())?,
    })
}
