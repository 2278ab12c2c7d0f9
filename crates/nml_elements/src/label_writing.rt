// Writing the labels of a port or a link.
ghost use Rattle.std.specs.Prelude.{◌≡◌, [], ◌∷◌, codes, OnOk, IfOk};
ghost use Rattle.serde_json.specs.View.{view, members_view};
ghost use Rattle.ml_base.specs.Text.{IsIdText};
ghost use Rattle.label_sets.specs.Ranges.{AreRanges};
ghost use Rattle.nml_elements.specs.Kept.{AreLabels};
ghost use Rattle.nml_elements.specs.ElementWriting.{with_part, object_of, text_part, first_label, set_part, labels_key, labels_part};

use crate::Labels;
use crate::member_writing::{Members, put_id, put_number, put_text, put_value};
use label_sets::LabelSet;
use ml_base::{Id, NoMemory};
use serde_json::{Map, Value};
use std::alloc::Global;

fn labels_key(group: bool) -> &'static str
    ensures { result.now ≡ labels_key group }
{
    if group { "hasLabelGroup" } else { "hasLabel" }
}

fn first_label(set: &LabelSet) -> u32
    ensures first { result ≡ first_label set.now }
    ensures kept { AreRanges set.now }
{
    match set.ranges().first() {
        Some(range) => range.0,
        None => 0,
    }
}

/// Puts the text of a set of labels, or its one label.
fn put_set(
    members: &mut Members,
    alloc: Global,
    group: bool,
    set: &LabelSet,
) -> Result<(), NoMemory>
    ensures written { OnOk result (members_view members.new.entries ≡ with_part (set_part group set.now).0 (set_part group set.now).1 (members_view members.old.entries)) }
    ensures kept { OnOk result (AreRanges set.now) }
{
    let label = first_label(set);
    if group {
        let text = set.write(alloc)?;
        return put_text(members, alloc, "values", text.as_str());
    }
    put_number(members, alloc, "value", u64::from(label))
}

#[tactic(auto, unfolding(crate::specs::ElementWriting::object_of))]
fn labels_value(
    alloc: Global,
    group: bool,
    labeltype: &Id,
    set: &LabelSet,
) -> Result<Value, NoMemory>
    ensures written { IfOk result (λ value. view value ≡ object_of ((codes "labeltype", text_part labeltype.now) ∷ set_part group set.now ∷ [])) }
    ensures kept { IfOk result (λ _. IsIdText labeltype.now × AreRanges set.now) }
{
    let mut members = Map::new(alloc);
    put_id(&mut members, alloc, "labeltype", labeltype)?;
    put_set(&mut members, alloc, group, set)?;
    Ok(Value::Object(members))
}

pub(crate) fn put_labels(
    members: &mut Members,
    alloc: Global,
    group: bool,
    labels: &Labels,
) -> Result<(), NoMemory>
    ensures written { OnOk result (members_view members.new.entries ≡ with_part (labels_key group) (labels_part group labels.now) (members_view members.old.entries)) }
    ensures kept { OnOk result (AreLabels labels.now) }
{
    let Labels::Of { labeltype, set } = labels else {
        return Ok(());
    };
    let value = labels_value(alloc, group, labeltype, set)?;
    put_value(members, alloc, labels_key(group), value)?;
    Ok(())
}
