ghost use Rattle.std.specs.Prelude.{◌≡◌, ◌<◌, ◌++◌, [], IfOk, OnOk, length, map, slice_index_or};
ghost use Rattle.ml_base.specs.declared.numbers.PortNo.{PortNo as PortNumber};

use alias_merge::Groups;
use ml_base::{NoMemory, PortNo};
use std::alloc::{AllocError, Global};
use std::marker::Model;

/// For each element a list of ports, which contracts see as the lists of their numbers.
#[derive(Drop)]
pub struct Relation {
    begins: Vec<usize>,
    ends: Vec<usize>,
    ports: Vec<PortNo>,
}

impl Model for Relation {
    ghost use Rattle.std.specs.Prelude.{List, ℕ, map};
    ghost use Rattle.ml_base.specs.declared.numbers.PortNo.{PortNo as PortNumber};
    ghost use Rattle.alias_merge.specs.Groups.{AreSpans, groups_at};

    ghost Value = { List (List ℕ) };

    ghost view = { λ r. groups_at r.begins.items r.ends.items (map (λ (p : PortNumber). p.0) r.ports.items) };

    ghost invariant = { λ r. AreSpans r.begins.items r.ends.items (map (λ (p : PortNumber). p.0) r.ports.items) };
}

impl Relation {
    /// The groups as ports.
    pub fn new(alloc: Global, count: u32, groups: &Groups) -> Result<Relation, NoMemory>
        requires { length groups.now ≡ count }
        ensures { IfOk result (λ relation. relation ≡ groups.now) }
    {
        match copied(alloc, count, groups) {
            Ok(relation) => Ok(relation),
            Err(_) => Err(NoMemory),
        }
    }

    /// The ports of the element of this number.
    pub fn of(&self, number: u64) -> &[PortNo]
        requires { number < length self.now }
        ensures { map (λ (p : PortNumber). p.0) result.now ≡ slice_index_or self.now number [] }
    {
        let begin = self.begins[number as usize];
        let end = self.ends[number as usize];
        &self.ports[begin..end]
    }
}

fn copied(alloc: Global, count: u32, groups: &Groups) -> Result<Relation, AllocError>
    requires { length groups.now ≡ count }
    ensures { IfOk result (λ relation. relation ≡ groups.now) }
{
    let mut begins = Vec::with_capacity(alloc, count as usize)?;
    let mut ends = Vec::with_capacity(alloc, count as usize)?;
    let mut ports = Vec::new(alloc);
    for number in 0..count {
        begins.push(ports.len())?;
        add_ports(&mut ports, groups.of(number))?;
        ends.push(ports.len())?;
    }
    Ok(Relation {
        begins,
        ends,
        ports,
    })
}

fn add_ports(ports: &mut Vec<PortNo>, group: &[u32]) -> Result<(), AllocError>
    ensures { OnOk result (map (λ (p : PortNumber). p.0) ports.new.items ≡ map (λ (p : PortNumber). p.0) ports.old.items ++ group.now) }
{
    for port in group {
        ports.push(PortNo(*port))?;
    }
    Ok(())
}
