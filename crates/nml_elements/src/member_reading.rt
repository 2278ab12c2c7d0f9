// Reading one member of an element.
ghost use Rattle.std.specs.Prelude.{◌≡◌, option_map};
ghost use Rattle.serde_json.specs.View.{view, items_view};
ghost use Rattle.nml_elements.specs.Gives.{Gives};
ghost use Rattle.nml_elements.specs.MemberReading.{part, id_at, required_id, optional_id, ids_at, array_at, relation, optional_relation, cost_at, swapping_at};

use crate::IdList;
use crate::fault::MemberFault;
use ml_base::{Id, IdFault};
use serde_json::Value;
use std::alloc::Global;

/// A member that is there. One whose value is null is not.
#[tactic(auto, unfolding(crate::specs::MemberReading::part))]
pub(crate) fn part<'v>(value: &'v Value, key: &str) -> Option<&'v Value>
    ensures { option_map (λ v. view v.now) result ≡ part key.now (view value.now) }
{
    let found = value.get(key)?;
    if found.is_null() { None } else { Some(found) }
}

#[tactic(auto, unfolding(crate::specs::MemberReading::id_at))]
pub(crate) fn id_of(alloc: Global, value: &Value, rule: u32) -> Result<Id, MemberFault>
    ensures { Gives result (id_at rule (view value.now)) }
{
    let Some(text) = value.as_str() else {
        return Err(MemberFault::Rule(rule));
    };
    match Id::new(alloc, text) {
        Ok(id) => Ok(id),
        Err(IdFault::Text) => Err(MemberFault::Rule(rule)),
        Err(IdFault::NoMemory) => Err(MemberFault::NoMemory),
    }
}

#[tactic(auto, unfolding(crate::specs::MemberReading::required_id))]
pub(crate) fn required_id_of(
    alloc: Global,
    value: &Value,
    key: &str,
    rule: u32,
) -> Result<Id, MemberFault>
    ensures { Gives result (required_id rule key.now (view value.now)) }
{
    match part(value, key) {
        Some(found) => id_of(alloc, found, rule),
        None => Err(MemberFault::Rule(rule)),
    }
}

#[tactic(auto, unfolding(crate::specs::MemberReading::optional_id))]
pub(crate) fn optional_id_of(
    alloc: Global,
    value: &Value,
    key: &str,
    rule: u32,
) -> Result<Option<Id>, MemberFault>
    ensures { Gives result (optional_id rule key.now (view value.now)) }
{
    match part(value, key) {
        Some(found) => Ok(Some(id_of(alloc, found, rule)?)),
        None => Ok(None),
    }
}

fn ids_of(alloc: Global, values: &[Value]) -> Result<IdList, MemberFault>
    ensures { Gives result (ids_at (items_view values.now)) }
{
    let mut ids = IdList::new(alloc);
    for value in values {
        let id = id_of(alloc, value, 9)?;
        ids.push(id)?;
    }
    Ok(ids)
}

#[tactic(auto, unfolding(crate::specs::MemberReading::array_at))]
fn array_of(alloc: Global, value: &Value) -> Result<IdList, MemberFault>
    ensures { Gives result (array_at (view value.now)) }
{
    match value.as_array() {
        Some(values) => ids_of(alloc, values),
        None => Err(MemberFault::Rule(9)),
    }
}

#[tactic(auto, unfolding(crate::specs::MemberReading::relation))]
pub(crate) fn relation_of(alloc: Global, value: &Value, key: &str) -> Result<IdList, MemberFault>
    ensures { Gives result (relation key.now (view value.now)) }
{
    match part(value, key) {
        Some(found) => array_of(alloc, found),
        None => Ok(IdList::new(alloc)),
    }
}

#[tactic(auto, unfolding(crate::specs::MemberReading::optional_relation))]
pub(crate) fn optional_relation_of(
    alloc: Global,
    value: &Value,
    key: &str,
) -> Result<Option<IdList>, MemberFault>
    ensures { Gives result (optional_relation key.now (view value.now)) }
{
    match part(value, key) {
        Some(found) => Ok(Some(array_of(alloc, found)?)),
        None => Ok(None),
    }
}

#[tactic(auto, unfolding(crate::specs::MemberReading::cost_at))]
pub(crate) fn cost_of(value: &Value) -> Result<u64, MemberFault>
    ensures { Gives result (cost_at (view value.now)) }
{
    let Some(found) = part(value, "cost") else {
        return Ok(1);
    };
    match found.as_u64() {
        Some(cost) => Ok(cost),
        None => Err(MemberFault::Rule(12)),
    }
}

#[tactic(auto, unfolding(crate::specs::MemberReading::swapping_at))]
pub(crate) fn swapping_of(value: &Value) -> Result<bool, MemberFault>
    ensures { Gives result (swapping_at (view value.now)) }
{
    let Some(found) = part(value, "labelSwapping") else {
        return Ok(false);
    };
    match found.as_bool() {
        Some(swapping) => Ok(swapping),
        None => Err(MemberFault::Rule(10)),
    }
}
