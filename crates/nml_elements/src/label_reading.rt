// Reading the labels of a port or a link.
ghost use Rattle.std.specs.Prelude.{◌≡◌, option_map, Ok, MatchResult};
ghost use Rattle.serde_json.specs.View.{view};
ghost use Rattle.label_sets.specs.GroupSet.{SomeRanges, all_of};
ghost use Rattle.nml_elements.specs.Gives.{Fails, Gives};
ghost use Rattle.nml_elements.specs.LabelReading.{unlabelled, value_part, values_part, set_at, label_at, group_label_at, labels_at};

use crate::Labels;
use crate::fault::MemberFault;
use crate::fitted_labels::FittedLabels;
use crate::member_reading::{part, required_id_of};
use label_sets::{LabelFault, LabelSet};
use serde_json::Value;
use std::alloc::Global;

#[tactic(auto, unfolding(crate::specs::LabelReading::labels_at))]
pub(crate) fn labels_of(
    alloc: Global,
    value: &Value,
    group: bool,
) -> Result<FittedLabels, MemberFault>
    ensures { Gives result (labels_at group (view value.now)) }
{
    if group {
        group_label_of(alloc, value)
    } else {
        label_of(alloc, value)
    }
}

#[tactic(auto, unfolding(crate::specs::LabelReading::label_at))]
fn label_of(alloc: Global, value: &Value) -> Result<FittedLabels, MemberFault>
    ensures { Gives result (label_at (view value.now)) }
{
    let Some(found) = part(value, "hasLabel") else {
        return Ok(unlabelled(false));
    };
    let labeltype = required_id_of(alloc, found, "labeltype", 13)?;
    let label = match value_in(found) {
        Some(label) if label < 1 << 32 => label as u32,
        _ => return Err(MemberFault::Rule(13)),
    };
    let set = LabelSet::single(alloc, label)?;
    Ok(FittedLabels {
        group: false,
        labels: Labels::Of { labeltype, set },
    })
}

#[tactic(auto, unfolding(crate::specs::LabelReading::group_label_at))]
fn group_label_of(alloc: Global, value: &Value) -> Result<FittedLabels, MemberFault>
    ensures { Gives result (group_label_at (view value.now)) }
{
    let Some(found) = part(value, "hasLabelGroup") else {
        return Ok(unlabelled(true));
    };
    let labeltype = required_id_of(alloc, found, "labeltype", 14)?;
    let Some(text) = values_in(found) else {
        return Err(MemberFault::Rule(14));
    };
    let set = set_of(alloc, text)?;
    Ok(FittedLabels {
        group: true,
        labels: Labels::Of { labeltype, set },
    })
}

fn value_in(value: &Value) -> Option<u64>
    ensures { result ≡ value_part (view value.now) }
{
    part(value, "value").and_then(Value::as_u64)
}

fn values_in(value: &Value) -> Option<&str>
    ensures { option_map (λ text. text.now) result ≡ values_part (view value.now) }
{
    part(value, "values").and_then(Value::as_str)
}

fn unlabelled(group: bool) -> FittedLabels
    ensures { result ≡ unlabelled group }
{
    FittedLabels {
        group,
        labels: Labels::Unlabelled,
    }
}

#[tactic(auto, unfolding(crate::specs::LabelReading::set_at))]
fn set_of(alloc: Global, text: &str) -> Result<LabelSet, MemberFault>
    ensures { MatchResult result (λ set. (some : SomeRanges) × (set_at text.now ≡ Ok some) × (set ≡ all_of some)) (λ fault. Fails fault (set_at text.now)) }
{
    match LabelSet::parse(alloc, text) {
        Ok(set) => Ok(set),
        Err(LabelFault::Text { at }) => Err(MemberFault::Label(at)),
        Err(LabelFault::NoMemory) => Err(MemberFault::NoMemory),
    }
}
