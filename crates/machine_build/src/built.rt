ghost use Rattle.std.specs.Prelude.{◌≡◌, ◌<◌, List, IfOk, MatchOption, length};
ghost use Rattle.std.specs.List.{Contains};
ghost use Rattle.circuit_spec.specs.declared.hops.Request.{Request as TheRequest};
ghost use Rattle.kept_table.specs.Table.{KeptOfType};
ghost use Rattle.machine_build.specs.Built.{IsBuilt, IsHopAt, IsState, kind_of};
ghost use Rattle.circuit_spec.specs.Network.{id_of};

use adapt_machine::Machine;
use circuit_spec::{Hop, HopKind, PlaceName};
use ml_base::{Id, NoMemory, PortNo, StateNo, StepNo};
use nml_elements::Element;
use nml_inventory::Inventory;
use open_places::Places;
use std::marker::Model;

/// Where the hop of a step is: its element and its two ports, by their numbers.
#[derive(Clone, Copy, Debug, PartialEq, Eq)]
pub struct Site {
    pub element: u64,
    pub from: PortNo,
    pub to: PortNo,
}

/// The machine of a network for a request, with the places of its states and the hops of its steps.
#[derive(Drop)]
pub struct Built {
    pub(crate) machine: Machine,
    pub(crate) places: Places,
    pub(crate) sites: Vec<Site>,
    pub(crate) starts: Vec<StateNo>,
    pub(crate) targets: Vec<StateNo>,
}

impl Model for Built {
    ghost use Rattle.machine_build.specs.Built.{BuiltValue};

    ghost Value = { BuiltValue };

    ghost view = { λ b. record { machine = b.machine; places = b.places.places; sites = b.sites.items; starts = b.starts.items; targets = b.targets.items } };
}

impl Built {
    /// The machine.
    pub fn machine(&self) -> &Machine
        ensures { result.now ≡ self.now.machine }
    {
        &self.machine
    }

    /// The states that are allowed places of FROM.
    pub fn starts(&self) -> &[StateNo]
        ensures { result.now ≡ self.now.starts }
    {
        self.starts.as_slice()
    }

    /// The states that are allowed places of TO.
    pub fn targets(&self) -> &[StateNo]
        ensures { result.now ≡ self.now.targets }
    {
        self.targets.as_slice()
    }

    /// The state of a place, and none where the place is no state.
    pub fn state(&self, place: &PlaceName) -> Option<StateNo>
        ensures { MatchOption result (¬ Contains self.now.places place.now) (λ state. IsState self.now state place.now) }
    {
        self.places.state(place)
    }

    /// The place of a state, over the same id.
    pub fn place(&self, state: StateNo) -> Result<PlaceName, NoMemory>
        requires { state.0 < length self.now.places }
        ensures { IfOk result (IsState self.now state) }
    {
        self.places.place(state).share()
    }

    /// The hop of a step, over the ids of the inventory that the machine was built of.
    pub fn hop(&self, inventory: &Inventory, step: StepNo) -> Result<Hop, NoMemory>
        requires within { step.0 < length self.now.machine.steps }
        requires built { (table : List KeptOfType) × ((request : TheRequest) × IsBuilt inventory.now table request self.now) }
        ensures { IfOk result (IsHopAt inventory.now self.now step.0) }
    {
        let place = step.0 as usize;
        let step = self.machine.step(step);
        let site = self.sites[place];
        let Some(element) = inventory.element(site.element) else {
            unreachable!()
        };
        let Some(kind) = kind_of(element) else {
            unreachable!()
        };
        Ok(Hop {
            kind,
            element: id_of(element).share()?,
            from: inventory.name(site.from).share()?,
            from_label: self.places.place(step.from).label,
            to: inventory.name(site.to).share()?,
            to_label: self.places.place(step.to).label,
            domain: inventory.domain_of(site.element).share()?,
        })
    }
}

fn kind_of(element: &Element) -> Option<HopKind>
    ensures { result ≡ kind_of element.now }
{
    match element {
        Element::Link(_) => Some(HopKind::Link),
        Element::Switching(_) => Some(HopKind::Cross),
        Element::Adaptation(_) => Some(HopKind::Adapt),
        Element::Deadaptation(_) => Some(HopKind::Deadapt),
        Element::Conversion(_) => Some(HopKind::Convert),
        Element::Node(_) | Element::Port(_) => None,
    }
}

fn id_of(element: &Element) -> &Id
    ensures { result.now ≡ id_of element.now }
{
    match element {
        Element::Node(node) => &node.id,
        Element::Port(port) => &port.id,
        Element::Link(link) => &link.id,
        Element::Switching(service) => &service.id,
        Element::Adaptation(service) => &service.id,
        Element::Deadaptation(service) => &service.id,
        Element::Conversion(service) => &service.id,
    }
}
