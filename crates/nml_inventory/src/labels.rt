ghost use Rattle.std.specs.Prelude.{◌≡◌, ◌+◌, ◌<◌, ◌∷◌, ◌++◌, ◌&&◌, [], IfOk, length, map, replicate, take};
ghost use Rattle.label_sets.specs.Ranges.{has, IsSetOf};
ghost use Rattle.circuit_spec.specs.Network.{Port, ports};
ghost use Rattle.nml_inventory.specs.Aliases.{AreClassNumbers};
ghost use Rattle.nml_inventory.specs.Relations.{IsClassCount};
ghost use Rattle.nml_inventory.specs.ClassSets.{admits, AreMerged, AreParts, HasAdded, HasMet, HasNarrowed};

use crate::numbered::Numbered;
use label_sets::LabelSet;
use ml_base::{NoMemory, PortNo};
use nml_elements::Labels;
use std::alloc::Global;

/// The labels that 2^rank members of a class have in common.
#[derive(Drop)]
struct Part {
    rank: u32,
    set: LabelSet,
}

/// The labels that all ports of a class have, at the number of its first port.
pub fn class_labels(alloc: Global, numbered: &Numbered) -> Result<Vec<Labels>, NoMemory>
    ensures { IfOk result (λ labels. AreMerged numbered.now labels.items) }
{
    let classes = numbered.classes();
    let lists = class_parts(alloc, numbered, classes)?;
    let mut labels = Vec::new(alloc);
    for port in 0..numbered.ports() {
        let own = &numbered.entry(PortNo(port)).labels;
        let fewer = narrowed(alloc, own, lists[port as usize].as_slice())?;
        let Ok(()) = labels.push(fewer) else {
            return Err(NoMemory);
        };
    }
    Ok(labels)
}

/// The parts of each class, at the number of its first port.
fn class_parts(
    alloc: Global,
    numbered: &Numbered,
    classes: &[u32],
) -> Result<Vec<Vec<Part>>, NoMemory>
    requires { AreClassNumbers numbered.now classes.now }
    ensures { IfOk result (λ lists. AreParts numbered.now classes.now (length (ports numbered.now)) (map (λ v. v.items) lists.items)) }
{
    let mut lists = no_parts(alloc, numbered.ports())?;
    for port in 0..numbered.ports() {
        add_port(alloc, numbered, classes, &mut lists, port)?;
    }
    Ok(lists)
}

/// This many empty lists of parts.
fn no_parts(alloc: Global, count: u32) -> Result<Vec<Vec<Part>>, NoMemory>
    ensures { IfOk result (λ lists. map (λ v. v.items) lists.items ≡ replicate count []) }
{
    let mut lists = Vec::new(alloc);
    for _ in 0..count {
        if lists.push(Vec::new(alloc)).is_err() {
            return Err(NoMemory);
        }
    }
    Ok(lists)
}

/// Adds the labels of a port to the parts of its class, but those of the class's first port.
fn add_port(
    alloc: Global,
    numbered: &Numbered,
    classes: &[u32],
    lists: &mut Vec<Vec<Part>>,
    port: u32,
) -> Result<(), NoMemory>
    requires within { port < length (ports numbered.now) }
    requires numbers { AreClassNumbers numbered.now classes.now }
    requires before { AreParts numbered.now classes.now port (map (λ v. v.items) lists.old.items) }
    ensures { IfOk result (λ _. AreParts numbered.now classes.now (port + 1) (map (λ v. v.items) lists.new.items)) }
{
    let class = classes[port as usize];
    if class == port {
        return Ok(());
    }
    let own = &numbered.entry(PortNo(port)).labels;
    add_labels(alloc, &mut lists[class as usize], own)?;
    Ok(())
}

/// Adds the labels of a member to the parts of its class.
fn add_labels(alloc: Global, parts: &mut Vec<Part>, labels: &Labels) -> Result<(), NoMemory>
    ensures { IfOk result (λ _. HasAdded parts.old.items (admits labels.now) parts.new.items) }
{
    let Labels::Of { set, .. } = labels else {
        return Ok(());
    };
    let set = set.meet(alloc, set)?;
    add_part(alloc, parts, Part { rank: 0, set })
}

/// Adds a part. Two of one rank are met, so that a label takes part in no more meets than there are ranks.
fn add_part(alloc: Global, parts: &mut Vec<Part>, part: Part) -> Result<(), NoMemory>
    ensures { IfOk result (λ _. HasAdded parts.old.items (has part.set) parts.new.items) }
{
    let Some(last) = parts.pop() else {
        return push_part(parts, part);
    };
    if last.rank != part.rank {
        push_part(parts, last)?;
        return push_part(parts, part);
    }
    let both = joined(alloc, last, part)?;
    add_part(alloc, parts, both)
}

/// Puts a part at the end.
fn push_part(parts: &mut Vec<Part>, part: Part) -> Result<(), NoMemory>
    ensures { IfOk result (λ _. parts.new.items ≡ parts.old.items ++ part ∷ []) }
{
    let Ok(()) = parts.push(part) else {
        return Err(NoMemory);
    };
    Ok(())
}

/// Two parts as one.
fn joined(alloc: Global, first: Part, second: Part) -> Result<Part, NoMemory>
    ensures { IfOk result (λ both. IsSetOf (λ label. has first.set label && has second.set label) both.set) }
{
    let set = first.set.meet(alloc, &second.set)?;
    Ok(Part {
        rank: first.rank.saturating_add(1),
        set,
    })
}

/// Those of the labels that all parts have.
fn narrowed(alloc: Global, labels: &Labels, parts: &[Part]) -> Result<Labels, NoMemory>
    ensures { IfOk result (HasNarrowed labels.now parts.now) }
{
    let Labels::Of { labeltype, set } = labels else {
        return Ok(Labels::Unlabelled);
    };
    let labeltype = labeltype.share()?;
    let set = met_with(alloc, set, parts)?;
    Ok(Labels::Of { labeltype, set })
}

/// The labels of a set that all parts have.
fn met_with(alloc: Global, set: &LabelSet, parts: &[Part]) -> Result<LabelSet, NoMemory>
    ensures { IfOk result (HasMet set.now parts.now) }
{
    let mut met = set.meet(alloc, set)?;
    for part in parts {
        met = met.meet(alloc, &part.set)?;
    }
    Ok(met)
}

/// How many ports are the first of their class.
pub fn count_classes(numbered: &Numbered) -> u32
    ensures { IsClassCount numbered.now result }
{
    numbered.is_merged();
    let mut count = 0u32;
    for port in 0..numbered.ports() {
        if numbered.class(PortNo(port)).0 == port {
            count += 1;
        }
    }
    count
}
