// Writing a domain as the bytes of a file.
ghost use Rattle.std.specs.Prelude.{◌≡◌, ◌≤◌, ◌++◌, ◌∷◌, [], codes, length, string_bytes, IfOk, OnOk, Ok};
ghost use Rattle.serde_json.specs.View.{view, items_view};
ghost use Rattle.serde_json.specs.Written.{compact_text};
ghost use Rattle.ml_base.specs.Text.{IsIdText};
ghost use Rattle.nml_elements.specs.Kept.{MayBeId};
ghost use Rattle.nml_elements.specs.FileReading.{domain_of};
ghost use Rattle.nml_elements.specs.FileWriting.{AreCounted, AreKept, entries_data, domain_data};

use crate::element_writing::entry_value;
use crate::member_writing::{push_value, put_id, put_number, put_optional_id, put_value};
use crate::{Domain, Entry};
use ml_base::NoMemory;
use serde_json::{Map, Value};
use std::alloc::Global;

fn entry_values(alloc: Global, entries: &[Entry]) -> Result<Vec<Value>, NoMemory>
    ensures written { IfOk result (λ values. items_view values.items ≡ entries_data entries.now) }
    ensures kept { IfOk result (λ _. AreKept entries.now) }
{
    let mut values = Vec::new(alloc);
    for entry in entries {
        let value = entry_value(alloc, entry)?;
        push_value(&mut values, value)?;
    }
    Ok(values)
}

#[tactic(auto, unfolding(crate::specs::FileWriting::domain_data, crate::specs::ElementWriting::object_of))]
fn domain_value(alloc: Global, domain: &Domain) -> Result<Value, NoMemory>
    ensures written { IfOk result (λ value. view value ≡ domain_data domain.now) }
    ensures id { IfOk result (λ _. IsIdText domain.now.id) }
    ensures encoding { IfOk result (λ _. MayBeId domain.now.encoding) }
    ensures kept { IfOk result (λ _. AreKept domain.now.elements) }
{
    let mut members = Map::new(alloc);
    let values = entry_values(alloc, domain.elements.as_slice())?;
    put_value(&mut members, alloc, "elements", Value::Array(values))?;
    put_optional_id(&mut members, alloc, "encoding", &domain.encoding)?;
    put_number(&mut members, alloc, "format", 1)?;
    put_id(&mut members, alloc, "topology", &domain.id)?;
    Ok(Value::Object(members))
}

/// The bytes of a file that says this domain: compact JSON, the members of each object in the order of their
/// names. Absent optional parts and empty relations are left out, a cost is always written, and `labelSwapping`
/// where it is true. Where the entries are numbered from 1 without a gap, reading the bytes gives the domain.
///
/// Errors: `NoMemory` where memory ran out.
pub fn write_domain(alloc: Global, domain: &Domain) -> Result<Vec<u8>, NoMemory>
    ensures written { IfOk result (λ bytes. bytes.items ≡ compact_text (domain_data domain.now)) }
    ensures reads_back { IfOk result (λ bytes. AreCounted 1 domain.now.elements → length domain.now.elements ≤ 16777216 → domain_of bytes.items ≡ Ok domain.now) }
{
    let value = domain_value(alloc, domain)?;
    match value.to_vec(alloc) {
        Ok(bytes) => Ok(bytes),
        Err(_) => Err(NoMemory),
    }
}
