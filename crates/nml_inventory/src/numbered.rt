ghost use Rattle.std.specs.Prelude.{◌≡◌, ◌<◌, ◌^◌, [], ℕ, Some, IfOk, IfErr, OnOk, length, slice_get, option_map, unwrap_or, map};
ghost use Rattle.std.specs.Rc.{rc_str_bytes};
ghost use Rattle.circuit_spec.specs.Faults.{Located, duplicate_ids, located, merge_faults};
ghost use Rattle.circuit_spec.specs.Network.{Placed, Port, elements_of, id_of, ports};
ghost use Rattle.nml_inventory.specs.Numbers.{element_number, port_number};
ghost use Rattle.nml_inventory.specs.Aliases.{AreClassNumbers, IsClassNumber, IsEntryOf};

use crate::named::Named;
use crate::port_ids::{class_numbers, number_ports, place_ports, port_of};
use circuit_spec::Spot;
use indexmap::IndexSet;
use keyed_hash::Keyed;
use ml_base::{Id, NoMemory, PortNo};
use nml_elements::{Element, PortE};
use std::alloc::Global;
use std::marker::Model;
use std::rc::RcStr;

/// The elements and ports of all files by number and by id, which contracts see as the domains.
#[derive(Drop)]
pub struct Numbered {
    named: Named,
    port_ids: IndexSet<RcStr<Global>, Keyed>,
    port_places: Vec<u64>,
    class_of: Vec<u32>,
    none: Id,
}

impl Model for Numbered {
    ghost use Rattle.std.specs.Prelude.{List, map};
    ghost use Rattle.std.specs.Rc.{rc_str_bytes};
    ghost use Rattle.nml_elements.specs.declared.elements.Domain.{Domain};
    ghost use Rattle.nml_inventory.specs.Aliases.{IsNumbered};

    ghost Value = { List Domain };

    ghost view = { λ i. i.named };

    ghost invariant = { λ i. IsNumbered i.named (map rc_str_bytes i.port_ids.keys) i.port_places.items i.class_of.items i.none };
}

impl Numbered {
    /// Numbers the ports and their classes.
    pub fn new(alloc: Global, named: Named) -> Result<Numbered, NoMemory>
        requires few { length (elements_of named) < 2 ^ 32 }
        requires merged { merge_faults named ≡ [] }
        requires once { duplicate_ids named ≡ [] }
        ensures { IfOk result (λ numbered. numbered ≡ named) }
    {
        let port_ids = number_ports(alloc, &named)?;
        let port_places = place_ports(alloc, &named)?;
        let Ok(none) = Id::new(alloc, "none") else {
            return Err(NoMemory);
        };
        let class_of = class_numbers(alloc, &named, &port_ids)?;
        Ok(Numbered {
            named,
            port_ids,
            port_places,
            class_of,
            none,
        })
    }

    /// How many ports there are.
    pub fn ports(&self) -> u32
        ensures { result ≡ length (ports self.now) }
    {
        self.class_of.len() as u32
    }

    /// The number of the port of an id.
    pub fn port(&self, id: &str) -> Option<PortNo>
        ensures { result ≡ option_map (λ n. record { 0 = n }) (port_number self.now id.now) }
    {
        match self.port_ids.get_index_of(id) {
            Some(number) => Some(PortNo(number as u32)),
            None => None,
        }
    }

    /// The record of a port.
    pub fn entry(&self, port: PortNo) -> &PortE
        requires { port.0 < length (ports self.now) }
        ensures { IsEntryOf self.now port.0 result.now }
    {
        let place = self.port_places[port.0 as usize];
        match port_of(self.named.at(place)) {
            Some(port) => port,
            None => unreachable!(),
        }
    }

    /// The ids of the ports by their numbers.
    pub fn port_ids(&self) -> &IndexSet<RcStr<Global>, Keyed>
        ensures ids { map rc_str_bytes result.now.keys ≡ map (λ (p : Port). p.id) (ports self.now) }
        ensures few { length result.now.keys < 2 ^ 32 }
    {
        &self.port_ids
    }

    /// The ids of the elements by their numbers.
    pub fn element_ids(&self) -> &IndexSet<RcStr<Global>, Keyed>
        ensures ids { map rc_str_bytes result.now.keys ≡ map (λ (e : Placed). id_of e.element) (elements_of self.now) }
        ensures few { length result.now.keys < 2 ^ 32 }
    {
        let _ = &self.port_ids;
        self.named.ids()
    }

    /// What maps over the files hash by.
    pub fn hashing(&self) -> Keyed {
        self.named.hashing()
    }

    /// The encoding of a port: its own, or its file's, or none.
    pub fn encoding_of(&self, port: PortNo) -> &Id
        requires { port.0 < length (ports self.now) }
        ensures { option_map (λ (p : Port). p.encoding) (slice_get (ports self.now) port.0) ≡ Some result.now }
    {
        let place = self.port_places[port.0 as usize];
        match port_of(self.named.at(place)) {
            Some(port) => stated(
                &port.encoding,
                stated(&self.named.domain(place).encoding, &self.none),
            ),
            None => unreachable!(),
        }
    }

    /// The class of a port: the first port that is linked to it.
    pub fn class(&self, port: PortNo) -> PortNo
        requires { port.0 < length (ports self.now) }
        ensures { IsClassNumber self.now port.0 result.0 }
    {
        PortNo(self.class_of[port.0 as usize])
    }

    /// The classes of all ports by their numbers.
    pub fn classes(&self) -> &[u32]
        ensures { AreClassNumbers self.now result.now }
    {
        self.class_of.as_slice()
    }

    /// The files of an inventory merge without a fault.
    pub fn is_merged(&self)
        ensures { merge_faults self.now ≡ [] }
    {
        let _ = &self.named;
    }

    /// How many elements there are.
    pub fn elements(&self) -> u32
        ensures { result ≡ length (elements_of self.now) }
    {
        self.named.len() as u32
    }

    /// The element of a number.
    pub fn at(&self, number: u64) -> &Element
        requires { number < length (elements_of self.now) }
        ensures { option_map (λ (p : Placed). p.element) (slice_get (elements_of self.now) number) ≡ Some result.now }
    {
        self.named.at(number)
    }

    /// The number of the element of an id.
    pub fn element_no(&self, id: &str) -> Option<u64>
        ensures { result ≡ element_number self.now id.now }
    {
        self.named.number(id)
    }

    /// The file and the place in it of an element.
    pub fn spot(&self, number: u64) -> Spot
        requires { number < length (elements_of self.now) }
        ensures { option_map (λ (l : Located). l.spot) (slice_get (located self.now) number) ≡ Some result }
    {
        self.named.spot(number)
    }

    /// The domain of an element.
    pub fn domain_of(&self, number: u64) -> &Id
        requires { number < length (elements_of self.now) }
        ensures { option_map (λ (p : Placed). p.domain.id) (slice_get (elements_of self.now) number) ≡ Some result.now }
    {
        &self.named.domain(number).id
    }
}

/// An encoding, or another where none is stated.
fn stated<'a>(encoding: &'a Option<Id>, other: &'a Id) -> &'a Id
    ensures { result.now ≡ unwrap_or encoding.now other.now }
{
    match encoding {
        Some(encoding) => encoding,
        None => other,
    }
}
