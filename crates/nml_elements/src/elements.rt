ghost use Rattle.std.specs.Prelude.{IsTrue};
ghost use Rattle.nml_elements.specs.Labels.{fits_group};

use crate::lifetimes::Lifetime;
use label_sets::LabelSet;
use ml_base::{Id, Items};

/// A list of ids.
pub type IdList = Items<Id>;

/// A list of entries.
pub type ElementList = Items<Entry>;

/// A list of domains, in the order of the files.
pub type DomainList = Items<Domain>;

/// What labels a port or a link has.
#[derive(Debug, Drop)]
pub enum Labels {
    Unlabelled,
    Of { labeltype: Id, set: LabelSet },
}

/// A Node: it lends its ports to the services that it names.
#[derive(Debug, Drop)]
pub struct NodeE {
    pub id: Id,
    pub inbound: IdList,
    pub outbound: IdList,
    pub services: IdList,
}

/// A Port, or a PortGroup. `sources` are the links of `isSource`, `sinks` those of `isSink`.
#[derive(Debug, Drop)]
pub struct PortE {
    pub id: Id,
    pub group: bool,
    pub encoding: Option<Id>,
    pub labels: Labels,
    pub sources: IdList,
    pub sinks: IdList,
    pub services: IdList,
    pub aliases: IdList,
    ghost labelled: { IsTrue (fits_group group labels) },
}

/// A Link, or a LinkGroup.
#[derive(Debug, Drop)]
pub struct LinkE {
    pub id: Id,
    pub group: bool,
    pub encoding: Option<Id>,
    pub labels: Labels,
    pub cost: u64,
    ghost labelled: { IsTrue (fits_group group labels) },
}

/// A SwitchingService.
#[derive(Debug, Drop)]
pub struct SwitchE {
    pub id: Id,
    pub encoding: Option<Id>,
    pub swapping: bool,
    pub cost: u64,
    pub inbound: Option<IdList>,
    pub outbound: Option<IdList>,
}

/// An AdaptationService, or a DeadaptationService, with its client ports.
#[derive(Debug, Drop)]
pub struct AdaptE {
    pub id: Id,
    pub function: Id,
    pub cost: u64,
    pub ports: IdList,
}

/// A ConversionService.
#[derive(Debug, Drop)]
pub struct ConvE {
    pub id: Id,
    pub cost: u64,
    pub inbound: IdList,
    pub outbound: IdList,
}

/// An element of one of the nine types that are read. Other elements of a file are not.
#[derive(Debug, Drop)]
pub enum Element {
    Node(NodeE),
    Port(PortE),
    Link(LinkE),
    Switching(SwitchE),
    Adaptation(AdaptE),
    Deadaptation(AdaptE),
    Conversion(ConvE),
}

/// An element with its place in the file, from 1, and how long it exists; without a lifetime it always does.
#[derive(Debug, Drop)]
pub struct Entry {
    pub number: u64,
    pub element: Element,
    pub lifetime: Option<Lifetime>,
}

/// What is read of a file. `encoding` is the one of ports that state none.
#[derive(Debug, Drop)]
pub struct Domain {
    pub id: Id,
    pub encoding: Option<Id>,
    pub elements: ElementList,
}
