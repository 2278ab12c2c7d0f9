// Reading a file, from its bytes to its elements.
ghost use Rattle.std.specs.Prelude.{◌≡◌, ◌≤◌, length, option_map, ◌⊎◌, [], ◌++◌, OnOk, codes, Some, None, Ok, IfOk, IfErr, MatchResult};
ghost use Rattle.serde_json.specs.View.{view, items_view};
ghost use Rattle.nml_elements.specs.MemberReading.{required_id, optional_id};
ghost use Rattle.nml_elements.specs.ElementReading.{element_at};
ghost use Rattle.nml_elements.specs.FileReading.{AreNumbered, Reads, Misses, located, at_element, with_entry, entries_at, format_at, elements_part, array_at, domain_at, json_of, domain_of};

use crate::element_reading::element_of;
use crate::fault::MemberFault;
use crate::living::Living;
use crate::member_reading::{optional_id_of, part, required_id_of};
use crate::{Domain, ElementList, Entry, ReadFault};
use ml_base::{Id, NoMemory};
use serde_json::Value;
use std::alloc::Global;

fn located(number: u64, fault: MemberFault) -> ReadFault
    ensures { result ≡ located number fault }
{
    match fault {
        MemberFault::Rule(rule) => ReadFault::Shape {
            element: number,
            rule,
        },
        MemberFault::Label(at) => ReadFault::Label {
            element: number,
            at,
        },
        MemberFault::NoMemory => ReadFault::NoMemory,
    }
}

fn at_element<T>(number: u64, read: Result<T, MemberFault>) -> Result<T, ReadFault>
    ensures { result ≡ at_element number read }
{
    match read {
        Ok(value) => Ok(value),
        Err(fault) => Err(located(number, fault)),
    }
}

fn located_element_of(
    alloc: Global,
    number: u64,
    value: &Value,
) -> Result<Option<Living>, ReadFault>
    ensures { Reads result (at_element number (element_at (view value.now))) }
{
    at_element(number, element_of(alloc, value))
}

fn add(entries: &mut ElementList, number: u64, found: Option<Living>) -> Result<(), NoMemory>
    ensures { OnOk result (entries.new ≡ entries.old ++ with_entry number found []) }
{
    match found {
        Some(living) => entries.push(Entry {
            number,
            element: living.element,
            lifetime: living.lifetime,
        }),
        None => Ok(()),
    }
}

fn entries_of(alloc: Global, values: &[Value]) -> Result<ElementList, ReadFault>
    ensures { Reads result (entries_at 1 (items_view values.now)) }
{
    let mut entries = ElementList::new(alloc);
    let mut number = 0;
    for value in values {
        number += 1;
        let found = located_element_of(alloc, number, value)?;
        add(&mut entries, number, found)?;
    }
    Ok(entries)
}

#[tactic(auto, unfolding(crate::specs::FileReading::format_at))]
fn format_of(value: &Value) -> Result<(), ReadFault>
    ensures { Reads result (at_element 0 (format_at (view value.now))) }
{
    if !value.is_object() {
        return Err(file_fault(1));
    }
    match part(value, "format").and_then(Value::as_u64) {
        Some(1) => Ok(()),
        _ => Err(file_fault(2)),
    }
}

fn file_fault(rule: u32) -> ReadFault
    ensures { result ≡ ReadFault.Shape 0 rule }
{
    ReadFault::Shape { element: 0, rule }
}

fn topology_of(alloc: Global, value: &Value) -> Result<Id, ReadFault>
    ensures { Reads result (at_element 0 (required_id 3 (codes "topology") (view value.now))) }
{
    at_element(0, required_id_of(alloc, value, "topology", 3))
}

fn encoding_of(alloc: Global, value: &Value) -> Result<Option<Id>, ReadFault>
    ensures { Reads result (at_element 0 (optional_id 4 (codes "encoding") (view value.now))) }
{
    at_element(0, optional_id_of(alloc, value, "encoding", 4))
}

fn elements_in(value: &Value) -> Option<&Vec<Value>>
    ensures { option_map (λ v. items_view v.now.items) result ≡ elements_part (view value.now) }
{
    part(value, "elements").and_then(Value::as_array)
}

fn array_of(value: &Value) -> Result<&Vec<Value>, ReadFault>
    ensures { MatchResult result (λ v. at_element 0 (array_at (view value.now)) ≡ Ok (items_view v.now.items)) (λ e. Misses e (at_element 0 (array_at (view value.now)))) }
{
    let Some(values) = elements_in(value) else {
        return Err(file_fault(5));
    };
    if values.len() > 16_777_216 {
        return Err(file_fault(5));
    }
    Ok(values)
}

#[tactic(auto, unfolding(crate::specs::FileReading::domain_at))]
fn domain_of(alloc: Global, value: &Value) -> Result<Domain, ReadFault>
    ensures reads { Reads result (domain_at (view value.now)) }
    ensures within { IfOk result (λ domain. AreNumbered 1 domain.elements × (length domain.elements ≤ 16777216)) }
{
    format_of(value)?;
    let id = topology_of(alloc, value)?;
    let encoding = encoding_of(alloc, value)?;
    let values = array_of(value)?;
    let elements = entries_of(alloc, values)?;
    Ok(Domain {
        id,
        encoding,
        elements,
    })
}

fn json_of(alloc: Global, bytes: &[u8]) -> Result<Value, ReadFault>
    ensures value { IfOk result (λ v. json_of bytes.now ≡ Some (view v)) }
    ensures refusal { IfErr result (λ e. (e ≡ ReadFault.NoMemory) ⊎ ((e ≡ ReadFault.Json) × (json_of bytes.now ≡ None))) }
{
    match Value::from_slice(alloc, bytes) {
        Ok(value) => Ok(value),
        Err(e) => {
            if e.is_memory() {
                Err(ReadFault::NoMemory)
            } else {
                Err(ReadFault::Json)
            }
        }
    }
}

/// The domain that the bytes of a file say, or the first fault of the file. `domain_of` of the specs is that
/// function of the bytes. Its entries have the numbers of its elements, which rise from 1 to at most 16,777,216.
///
/// Errors: `Json` where `serde_json` finds no value in the bytes; `Shape` with an element and the number of the
/// first rule of shape that fails there; `Label` where the text of a label group is refused, with the length of
/// its longest prefix that is one. Element 0 is the file itself.
#[tactic(auto, unfolding(crate::specs::FileReading::domain_of))]
pub fn read_domain(alloc: Global, bytes: &[u8]) -> Result<Domain, ReadFault>
    ensures reads { Reads result (domain_of bytes.now) }
    ensures numbered { IfOk result (λ domain. AreNumbered 1 domain.elements) }
    ensures few { IfOk result (λ domain. length domain.elements ≤ 16777216) }
{
    let value = json_of(alloc, bytes)?;
    domain_of(alloc, &value)
}
