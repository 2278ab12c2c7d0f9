// Writing the lifetime of an element.
ghost use Rattle.std.specs.Prelude.{◌≡◌, codes, OnOk, IfOk};
ghost use Rattle.serde_json.specs.View.{view, members_view};
ghost use Rattle.nml_elements.specs.Kept.{MayBeLifespan};
ghost use Rattle.nml_elements.specs.Lifetimes.{IsLifespan};
ghost use Rattle.nml_elements.specs.ElementWriting.{with_part, object_of, optional_number_part, lifespan_parts, lifetime_part};

use crate::Lifetime;
use crate::member_writing::{Members, put_number, put_value};
use ml_base::NoMemory;
use serde_json::{Map, Value};
use std::alloc::Global;

fn put_optional_number(
    members: &mut Members,
    alloc: Global,
    key: &str,
    number: Option<u64>,
) -> Result<(), NoMemory>
    ensures { OnOk result (members_view members.new.entries ≡ with_part key.now (optional_number_part number) (members_view members.old.entries)) }
{
    match number {
        Some(n) => put_number(members, alloc, key, n),
        None => Ok(()),
    }
}

#[tactic(auto, unfolding(crate::specs::ElementWriting::object_of))]
fn lifespan_value(alloc: Global, lifetime: &Lifetime) -> Result<Value, NoMemory>
    ensures written { IfOk result (λ value. view value ≡ object_of (lifespan_parts lifetime.now)) }
    ensures kept { IfOk result (λ _. IsLifespan lifetime.now) }
{
    let mut members = Map::new(alloc);
    put_optional_number(&mut members, alloc, "end", lifetime.end())?;
    put_number(&mut members, alloc, "start", lifetime.start())?;
    Ok(Value::Object(members))
}

/// Puts the lifetime, if there is one.
pub(crate) fn put_lifetime(
    members: &mut Members,
    alloc: Global,
    lifetime: &Option<Lifetime>,
) -> Result<(), NoMemory>
    ensures written { OnOk result (members_view members.new.entries ≡ with_part (codes "existsDuring") (lifetime_part lifetime.now) (members_view members.old.entries)) }
    ensures kept { OnOk result (MayBeLifespan lifetime.now) }
{
    let Some(lifetime) = lifetime else {
        return Ok(());
    };
    let value = lifespan_value(alloc, lifetime)?;
    put_value(members, alloc, "existsDuring", value)?;
    Ok(())
}
