ghost use Rattle.std.specs.Prelude.{◌≡◌, ◌↔◌, ◌<◌, IfOk, IsTrue, OnErr, OnOk, Some, length, slice_get};
ghost use Rattle.std.specs.Option.{option_copied};
ghost use Rattle.circuit_spec.specs.Faults.{IsSound};
ghost use Rattle.circuit_spec.specs.Network.{Name, Placed, Port, label_type, ports};
ghost use Rattle.circuit_spec.specs.Steps.{frame_of};
ghost use Rattle.packet_replay.specs.Carried.{IsTopOf};
ghost use Rattle.packet_replay.specs.Conditions.{FitsFrame, HasRoom, TakesTop, Way, stack_after};
ghost use Rattle.packet_replay.specs.Numbered.{AreNumbers, IsEnd};

use crate::labels::is_same_label;
use crate::numbers::{End, Numbers, element_at};
use circuit_spec::{Frame, FrameList, Hop, HopKind, Unit};
use ml_base::{Id, NoMemory, Tag};
use nml_elements::{Element, Labels};
use nml_inventory::Inventory;

/// Whether the labels are of the type, or there is neither.
fn is_type_of(labeltype: &Option<Id>, labels: &Labels) -> bool
    ensures { IsTrue result ↔ labeltype.now ≡ label_type labels.now }
{
    match (labeltype, labels) {
        (Some(one), Labels::Of { labeltype, .. }) => one == labeltype,
        (None, Labels::Unlabelled) => true,
        _ => false,
    }
}

/// The label type of labels, or none.
fn type_of(labels: &Labels) -> Result<Option<Id>, NoMemory>
    ensures { IfOk result (λ labeltype. labeltype ≡ label_type labels.now) }
{
    match labels {
        Labels::Of { labeltype, .. } => Ok(Some(labeltype.share()?)),
        Labels::Unlabelled => Ok(None),
    }
}

/// Whether the frame is that of the function and the place of the end's class and the label.
fn is_frame_of(inventory: &Inventory, frame: &Frame, function: &Id, end: End, label: Tag) -> bool
    requires sound { IsSound inventory.now }
    requires port { end.port.0 < length (ports inventory.now) }
    requires class { end.class.0 < length (ports inventory.now) }
    ensures { (id : Name) (class : Port) → IsEnd inventory.now id class end → IsTrue result ↔ frame.now ≡ frame_of function.now class label }
{
    frame.function == *function
        && frame.encoding == *inventory.encoding_of(end.class)
        && is_type_of(&frame.labeltype, inventory.labels_of(end.port))
        && is_same_label(frame.label, label)
}

/// The frame of the function and the place of the end's class and the label.
fn frame_of(inventory: &Inventory, function: &Id, end: End, label: Tag) -> Result<Frame, NoMemory>
    requires sound { IsSound inventory.now }
    requires port { end.port.0 < length (ports inventory.now) }
    requires class { end.class.0 < length (ports inventory.now) }
    ensures { IfOk result (λ frame. (id : Name) (class : Port) → IsEnd inventory.now id class end → frame ≡ frame_of function.now class label) }
{
    Ok(Frame {
        function: function.share()?,
        encoding: inventory.encoding_of(end.class).share()?,
        labeltype: type_of(inventory.labels_of(end.port))?,
        label,
    })
}

/// The top of a stack, if it has a frame.
fn top_of(stack: &FrameList) -> Option<&Frame>
    ensures { IsTopOf stack.now (option_copied result) }
{
    stack.as_slice().last()
}

/// Whether what the element takes off is on top of the unit's stack.
pub fn fits_frame(inventory: &Inventory, unit: &Unit, hop: &Hop, numbers: Numbers) -> bool
    requires sound { IsSound inventory.now }
    requires numbers { (way : Way) × AreNumbers inventory.now hop.now way numbers }
    ensures { (way : Way) → AreNumbers inventory.now hop.now way numbers → IsTrue result ↔ FitsFrame unit.now hop.now way }
{
    let Element::Deadaptation(service) = element_at(inventory, numbers.element) else {
        return true;
    };
    match top_of(&unit.stack) {
        Some(top) => is_frame_of(inventory, top, &service.function, numbers.to, hop.to_label),
        None => false,
    }
}

/// Whether what the hop puts on a stack has room there.
pub fn has_room(room: u64, unit: &Unit, hop: &Hop) -> bool
    ensures { IsTrue result ↔ HasRoom room unit.now hop.now }
{
    match hop.kind {
        HopKind::Adapt => unit.stack.len() < room,
        _ => true,
    }
}

/// Puts on a stack, or takes off it, what the hop's element does. A refusal changes nothing.
pub fn restack(
    inventory: &Inventory,
    stack: &mut FrameList,
    hop: &Hop,
    numbers: Numbers,
) -> Result<(), NoMemory>
    requires sound { IsSound inventory.now }
    requires numbers { (way : Way) × AreNumbers inventory.now hop.now way numbers }
    ensures ok { OnOk result ((way : Way) → AreNumbers inventory.now hop.now way numbers → stack.new ≡ stack_after hop.now way.from way.placed.element stack.old) }
    ensures err { OnErr result (stack.new ≡ stack.old) }
{
    match element_at(inventory, numbers.element) {
        Element::Adaptation(service) => {
            let frame = frame_of(inventory, &service.function, numbers.from, hop.from_label)?;
            stack.push(frame)?;
            Ok(())
        }
        Element::Deadaptation(_) => {
            stack.pop();
            Ok(())
        }
        _ => Ok(()),
    }
}
