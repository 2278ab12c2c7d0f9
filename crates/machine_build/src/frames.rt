ghost use Rattle.std.specs.Prelude.{◌≡◌, ◌<◌, IfOk, OnOk, Some, length};
ghost use Rattle.circuit_spec.specs.Faults.{ClassesFit};
ghost use Rattle.circuit_spec.specs.Network.{label_type, ports};
ghost use Rattle.circuit_spec.specs.Steps.{cost_of_element};
ghost use Rattle.machine_build.specs.Frames.{AreApart, GoesOn, HasNumbered, IsEffect, IsFrameAt, IsNumberOf};

use crate::ways::Effect;
use adapt_machine::MachineKind;
use circuit_spec::Frame;
use indexmap::IndexSet;
use keyed_hash::Keyed;
use ml_base::{FrameNo, Id, NoMemory, PortNo, Tag};
use nml_elements::{Element, Labels};
use nml_inventory::Inventory;

/// The number of a frame: that of an equal one, or the next.
fn number_frame(frames: &mut IndexSet<Frame, Keyed>, frame: Frame) -> Result<FrameNo, NoMemory>
    ensures { IfOk result (λ no. HasNumbered frames.old.keys frames.new.keys frame no.0) }
{
    let Ok(put) = frames.insert_full(frame) else {
        return Err(NoMemory);
    };
    Ok(FrameNo(put.0 as u64))
}

/// How many frames there are. No two are equal.
pub fn count_frames(frames: &IndexSet<Frame, Keyed>) -> u64
    ensures counted { result ≡ length frames.now.keys }
    ensures apart { AreApart frames.now.keys }
{
    frames.len() as u64
}

fn type_of(labels: &Labels) -> Result<Option<Id>, NoMemory>
    ensures { IfOk result (λ labeltype. labeltype ≡ label_type labels.now) }
{
    match labels {
        Labels::Unlabelled => Ok(None),
        Labels::Of { labeltype, .. } => Ok(Some(labeltype.share()?)),
    }
}

/// The frame of a function and of the place of a label in a port's class.
fn frame_of(
    inventory: &Inventory,
    function: &Id,
    port: PortNo,
    label: Tag,
) -> Result<Frame, NoMemory>
    requires port { port.0 < length (ports inventory.now) }
    requires fit { ClassesFit inventory.now }
    ensures { IfOk result (IsFrameAt inventory.now port.0 function.now label) }
{
    let class = inventory.class(port);
    let labeltype = type_of(inventory.labels_of(port))?;
    Ok(Frame {
        function: function.share()?,
        encoding: inventory.encoding_of(class).share()?,
        labeltype,
        label,
    })
}

fn cost_of(element: &Element) -> u64
    ensures { result ≡ cost_of_element element.now }
{
    match element {
        Element::Link(link) => link.cost,
        Element::Switching(service) => service.cost,
        Element::Adaptation(service) | Element::Deadaptation(service) => service.cost,
        Element::Conversion(service) => service.cost,
        Element::Node(_) | Element::Port(_) => 0,
    }
}

/// The frame's number, for a service with this function and a client port.
fn frame_number(
    inventory: &Inventory,
    frames: &mut IndexSet<Frame, Keyed>,
    function: &Id,
    port: PortNo,
    label: Tag,
) -> Result<FrameNo, NoMemory>
    requires port { port.0 < length (ports inventory.now) }
    requires fit { ClassesFit inventory.now }
    ensures on { OnOk result (GoesOn frames.old.keys frames.new.keys) }
    ensures framed { IfOk result (IsNumberOf inventory.now frames.new.keys port.0 function.now label) }
{
    let frame = frame_of(inventory, function, port, label)?;
    number_frame(frames, frame)
}

/// What the steps of an element do and cost whose near end is at this label of the port's class.
pub fn effect_of(
    inventory: &Inventory,
    frames: &mut IndexSet<Frame, Keyed>,
    element: &Element,
    near: PortNo,
    label: Tag,
) -> Result<Effect, NoMemory>
    requires port { near.0 < length (ports inventory.now) }
    requires fit { ClassesFit inventory.now }
    ensures on { OnOk result (GoesOn frames.old.keys frames.new.keys) }
    ensures effect { IfOk result (IsEffect inventory.now frames.new.keys element.now near.0 label) }
{
    let _ = inventory.class(near);
    let cost = cost_of(element);
    match element {
        Element::Adaptation(service) => {
            let frame = frame_number(inventory, frames, &service.function, near, label)?;
            Ok(Effect {
                kind: MachineKind::Push,
                frame,
                cost,
            })
        }
        Element::Deadaptation(service) => {
            let frame = frame_number(inventory, frames, &service.function, near, label)?;
            Ok(Effect {
                kind: MachineKind::Pop,
                frame,
                cost,
            })
        }
        _ => Ok(Effect {
            kind: MachineKind::Flat,
            frame: FrameNo(0),
            cost,
        }),
    }
}
