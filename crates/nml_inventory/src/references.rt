ghost use Rattle.std.specs.Prelude.{◌≡◌, ◌+◌, IfOk, OnOk, is_none, length, map};
ghost use Rattle.circuit_spec.specs.Network.{element_named};
ghost use Rattle.std.specs.Rc.{rc_str_bytes};
ghost use Rattle.nml_inventory.specs.Relations.{open_at, open_in, open_names, open_references, with_name};

use crate::kinds::relation_at;
use crate::numbered::Numbered;
use indexmap::IndexSet;
use keyed_hash::Keyed;
use ml_base::{Id, NoMemory};
use nml_elements::Element;
use std::alloc::Global;
use std::rc::RcStr;

/// Counts the ids that relations name and no element has, each once for an element and a member.
pub fn open_references(alloc: Global, numbered: &Numbered) -> Result<u64, NoMemory>
    ensures { IfOk result (λ count. count ≡ open_references numbered.now) }
{
    let mut total = 0u64;
    for number in 0..numbered.elements() {
        let count = open_at(alloc, numbered, numbered.at(u64::from(number)))?;
        total = sum(total, count)?;
    }
    Ok(total)
}

/// Counts them for one element.
fn open_at(alloc: Global, numbered: &Numbered, element: &Element) -> Result<u64, NoMemory>
    ensures { IfOk result (λ count. count ≡ open_at numbered.now element.now) }
{
    let mut total = 0u64;
    for place in 0..4u8 {
        let count = open_in(alloc, numbered, element, place)?;
        total = sum(total, count)?;
    }
    Ok(total)
}

/// Counts them for one member of an element.
fn open_in(
    alloc: Global,
    numbered: &Numbered,
    element: &Element,
    place: u8,
) -> Result<u64, NoMemory>
    ensures { IfOk result (λ count. count ≡ open_in numbered.now element.now place) }
{
    match relation_at(element, place) {
        Some(names) => {
            let ids = open_names(alloc, numbered, names.targets)?;
            Ok(ids.len() as u64)
        }
        None => Ok(0),
    }
}

/// The names that no element has, each once.
fn open_names(
    alloc: Global,
    numbered: &Numbered,
    targets: &[Id],
) -> Result<IndexSet<RcStr<Global>, Keyed>, NoMemory>
    ensures { IfOk result (λ ids. map rc_str_bytes ids.keys ≡ open_names numbered.now targets.now) }
{
    let mut ids = IndexSet::with_hasher(alloc, numbered.hashing());
    for target in targets {
        if is_open(numbered, target) {
            add_once(&mut ids, target)?;
        }
    }
    Ok(ids)
}

/// Whether no element has the id.
fn is_open(numbered: &Numbered, id: &Id) -> bool
    ensures { result ≡ is_none (element_named numbered.now id.now) }
{
    match numbered.element_no(id.text()) {
        Some(_) => false,
        None => true,
    }
}

/// Puts the id behind the others, where it is not among them.
fn add_once(ids: &mut IndexSet<RcStr<Global>, Keyed>, id: &Id) -> Result<(), NoMemory>
    ensures { OnOk result (map rc_str_bytes ids.new.keys ≡ with_name (map rc_str_bytes ids.old.keys) id.now) }
{
    let key = id.key()?;
    let Ok(_) = ids.insert_full(key) else {
        return Err(NoMemory);
    };
    Ok(())
}

fn sum(total: u64, count: u64) -> Result<u64, NoMemory>
    ensures { IfOk result (λ sum. sum ≡ total + count) }
{
    match total.checked_add(count) {
        Some(sum) => Ok(sum),
        None => Err(NoMemory),
    }
}
