// Reading the lifetime of an element.
ghost use Rattle.std.specs.Prelude.{◌≡◌};
ghost use Rattle.serde_json.specs.View.{view};
ghost use Rattle.nml_elements.specs.Gives.{Gives};
ghost use Rattle.nml_elements.specs.LifetimeReading.{time_at, start_at, end_at, times_at, lifespan_at, lifetime_at};

use crate::Lifetime;
use crate::fault::MemberFault;
use crate::member_reading::part;
use serde_json::Value;

#[tactic(auto, unfolding(crate::specs::LifetimeReading::time_at))]
fn time_of(value: &Value) -> Result<u64, MemberFault>
    ensures { Gives result (time_at (view value.now)) }
{
    match value.as_u64() {
        Some(time) => Ok(time),
        None => Err(MemberFault::Rule(15)),
    }
}

#[tactic(auto, unfolding(crate::specs::LifetimeReading::start_at))]
fn start_of(value: &Value) -> Result<u64, MemberFault>
    ensures { Gives result (start_at (view value.now)) }
{
    match part(value, "start") {
        Some(found) => time_of(found),
        None => Ok(0),
    }
}

#[tactic(auto, unfolding(crate::specs::LifetimeReading::end_at))]
fn end_of(value: &Value) -> Result<Option<u64>, MemberFault>
    ensures { Gives result (end_at (view value.now)) }
{
    match part(value, "end") {
        Some(found) => Ok(Some(time_of(found)?)),
        None => Ok(None),
    }
}

#[tactic(auto, unfolding(crate::specs::LifetimeReading::times_at))]
fn times_of(value: &Value) -> Result<Lifetime, MemberFault>
    ensures { Gives result (times_at (view value.now)) }
{
    let start = start_of(value)?;
    let end = end_of(value)?;
    match Lifetime::new(start, end) {
        Some(lifetime) => Ok(lifetime),
        None => Err(MemberFault::Rule(15)),
    }
}

#[tactic(auto, unfolding(crate::specs::LifetimeReading::lifespan_at))]
fn lifespan_of(value: &Value) -> Result<Lifetime, MemberFault>
    ensures { Gives result (lifespan_at (view value.now)) }
{
    if !value.is_object() {
        return Err(MemberFault::Rule(15));
    }
    times_of(value)
}

#[tactic(auto, unfolding(crate::specs::LifetimeReading::lifetime_at))]
pub(crate) fn lifetime_of(value: &Value) -> Result<Option<Lifetime>, MemberFault>
    ensures { Gives result (lifetime_at (view value.now)) }
{
    match part(value, "existsDuring") {
        Some(found) => Ok(Some(lifespan_of(found)?)),
        None => Ok(None),
    }
}
