// Writing one member of an element.
ghost use Rattle.std.specs.Prelude.{◌≡◌, [], ◌∷◌, ◌++◌, OnOk, IfOk};
ghost use Rattle.serde_json.specs.Data.{string, array, put};
ghost use Rattle.serde_json.specs.View.{view, items_view, members_view};
ghost use Rattle.ml_base.specs.Text.{IsIdText};
ghost use Rattle.nml_elements.specs.Kept.{AreIds, MayBeId, MayBeIds};
ghost use Rattle.nml_elements.specs.ElementWriting.{with_part, text_part, optional_text_part, number_part, swapping_part, texts, list_part, relation_part, optional_relation_part};

use crate::IdList;
use ml_base::{Id, NoMemory};
use serde_json::{Map, Value};
use std::alloc::Global;

/// The members of a JSON object.
pub(crate) type Members = Map<String, Value>;

pub(crate) fn put_value(
    members: &mut Members,
    alloc: Global,
    key: &str,
    value: Value,
) -> Result<(), NoMemory>
    ensures { OnOk result (members_view members.new.entries ≡ put key.now (view value) (members_view members.old.entries)) }
{
    match serde_json::put(members, alloc, key, value) {
        Ok(()) => Ok(()),
        Err(_) => Err(NoMemory),
    }
}

fn text_value(alloc: Global, text: &str) -> Result<Value, NoMemory>
    ensures { IfOk result (λ value. view value ≡ string text.now) }
{
    match Value::try_from_str(alloc, text) {
        Ok(value) => Ok(value),
        Err(_) => Err(NoMemory),
    }
}

pub(crate) fn put_text(
    members: &mut Members,
    alloc: Global,
    key: &str,
    text: &str,
) -> Result<(), NoMemory>
    ensures { OnOk result (members_view members.new.entries ≡ with_part key.now (text_part text.now) (members_view members.old.entries)) }
{
    let value = text_value(alloc, text)?;
    put_value(members, alloc, key, value)?;
    Ok(())
}

pub(crate) fn put_id(
    members: &mut Members,
    alloc: Global,
    key: &str,
    id: &Id,
) -> Result<(), NoMemory>
    ensures written { OnOk result (members_view members.new.entries ≡ with_part key.now (text_part id.now) (members_view members.old.entries)) }
    ensures kept { OnOk result (IsIdText id.now) }
{
    put_text(members, alloc, key, id.text())?;
    Ok(())
}

pub(crate) fn put_optional_id(
    members: &mut Members,
    alloc: Global,
    key: &str,
    id: &Option<Id>,
) -> Result<(), NoMemory>
    ensures written { OnOk result (members_view members.new.entries ≡ with_part key.now (optional_text_part id.now) (members_view members.old.entries)) }
    ensures kept { OnOk result (MayBeId id.now) }
{
    match id {
        Some(id) => put_id(members, alloc, key, id),
        None => Ok(()),
    }
}

pub(crate) fn put_number(
    members: &mut Members,
    alloc: Global,
    key: &str,
    n: u64,
) -> Result<(), NoMemory>
    ensures { OnOk result (members_view members.new.entries ≡ with_part key.now (number_part n) (members_view members.old.entries)) }
{
    put_value(members, alloc, key, Value::from(n))?;
    Ok(())
}

pub(crate) fn put_swapping(
    members: &mut Members,
    alloc: Global,
    key: &str,
    swapping: bool,
) -> Result<(), NoMemory>
    ensures { OnOk result (members_view members.new.entries ≡ with_part key.now (swapping_part swapping) (members_view members.old.entries)) }
{
    if !swapping {
        return Ok(());
    }
    put_value(members, alloc, key, Value::Bool(true))?;
    Ok(())
}

fn id_value(alloc: Global, id: &Id) -> Result<Value, NoMemory>
    ensures written { IfOk result (λ value. view value ≡ string id.now) }
    ensures kept { IfOk result (λ _. IsIdText id.now) }
{
    text_value(alloc, id.text())
}

pub(crate) fn push_value(values: &mut Vec<Value>, value: Value) -> Result<(), NoMemory>
    ensures { OnOk result (values.new.items ≡ values.old.items ++ value ∷ []) }
{
    match values.push(value) {
        Ok(()) => Ok(()),
        Err(_) => Err(NoMemory),
    }
}

fn id_values(alloc: Global, ids: &[Id]) -> Result<Vec<Value>, NoMemory>
    ensures written { IfOk result (λ values. items_view values.items ≡ texts ids.now) }
    ensures kept { IfOk result (λ _. AreIds ids.now) }
{
    let mut values = Vec::new(alloc);
    for id in ids {
        let value = id_value(alloc, id)?;
        push_value(&mut values, value)?;
    }
    Ok(values)
}

fn put_list(members: &mut Members, alloc: Global, key: &str, ids: &[Id]) -> Result<(), NoMemory>
    ensures written { OnOk result (members_view members.new.entries ≡ with_part key.now (list_part ids.now) (members_view members.old.entries)) }
    ensures kept { OnOk result (AreIds ids.now) }
{
    let values = id_values(alloc, ids)?;
    put_value(members, alloc, key, Value::Array(values))?;
    Ok(())
}

/// Puts a relation, unless it is empty.
pub(crate) fn put_relation(
    members: &mut Members,
    alloc: Global,
    key: &str,
    ids: &IdList,
) -> Result<(), NoMemory>
    ensures written { OnOk result (members_view members.new.entries ≡ with_part key.now (relation_part ids.now) (members_view members.old.entries)) }
    ensures kept { OnOk result (AreIds ids.now) }
{
    let ids = ids.as_slice();
    if ids.is_empty() {
        return Ok(());
    }
    put_list(members, alloc, key, ids)?;
    Ok(())
}

pub(crate) fn put_optional_relation(
    members: &mut Members,
    alloc: Global,
    key: &str,
    ids: &Option<IdList>,
) -> Result<(), NoMemory>
    ensures written { OnOk result (members_view members.new.entries ≡ with_part key.now (optional_relation_part ids.now) (members_view members.old.entries)) }
    ensures kept { OnOk result (MayBeIds ids.now) }
{
    match ids {
        Some(ids) => put_list(members, alloc, key, ids.as_slice()),
        None => Ok(()),
    }
}
