// Equal elements over the same ids.
ghost use Rattle.std.specs.Prelude.{◌≡◌, IfOk};

use crate::{AdaptE, ConvE, Element, Entry, IdList, Labels, LinkE, NodeE, PortE, SwitchE};
use ml_base::{Id, NoMemory};
use std::alloc::Global;

fn shared_id(id: &Option<Id>) -> Result<Option<Id>, NoMemory>
    ensures { IfOk result (λ shared. shared ≡ id.now) }
{
    match id {
        Some(id) => Ok(Some(id.share()?)),
        None => Ok(None),
    }
}

fn shared_ids(alloc: Global, ids: &[Id]) -> Result<IdList, NoMemory>
    ensures { IfOk result (λ shared. shared ≡ ids.now) }
{
    let mut shared = IdList::new(alloc);
    for id in ids {
        let equal = id.share()?;
        shared.push(equal)?;
    }
    Ok(shared)
}

fn shared_list(alloc: Global, ids: &Option<IdList>) -> Result<Option<IdList>, NoMemory>
    ensures { IfOk result (λ shared. shared ≡ ids.now) }
{
    match ids {
        Some(ids) => Ok(Some(shared_ids(alloc, ids.as_slice())?)),
        None => Ok(None),
    }
}

impl Labels {
    /// Equal labels over the same label type.
    pub fn share(&self, alloc: Global) -> Result<Labels, NoMemory>
        ensures { IfOk result (λ labels. labels ≡ self.now) }
    {
        match self {
            Labels::Unlabelled => Ok(Labels::Unlabelled),
            Labels::Of { labeltype, set } => Ok(Labels::Of {
                labeltype: labeltype.share()?,
                set: set.share(alloc)?,
            }),
        }
    }
}

impl NodeE {
    /// An equal Node over the same ids.
    pub fn share(&self, alloc: Global) -> Result<NodeE, NoMemory>
        ensures { IfOk result (λ node. node ≡ self.now) }
    {
        Ok(NodeE {
            id: self.id.share()?,
            inbound: shared_ids(alloc, self.inbound.as_slice())?,
            outbound: shared_ids(alloc, self.outbound.as_slice())?,
            services: shared_ids(alloc, self.services.as_slice())?,
        })
    }
}

impl PortE {
    /// An equal port over the same ids.
    pub fn share(&self, alloc: Global) -> Result<PortE, NoMemory>
        ensures { IfOk result (λ port. port ≡ self.now) }
    {
        let id = self.id.share()?;
        let encoding = shared_id(&self.encoding)?;
        let labels = self.labels.share(alloc)?;
        let sources = shared_ids(alloc, self.sources.as_slice())?;
        let sinks = shared_ids(alloc, self.sinks.as_slice())?;
        let services = shared_ids(alloc, self.services.as_slice())?;
        let aliases = shared_ids(alloc, self.aliases.as_slice())?;
        Ok(PortE {
            id,
            group: self.group,
            encoding,
            labels,
            sources,
            sinks,
            services,
            aliases,
        })
    }
}

impl LinkE {
    /// An equal link over the same ids.
    pub fn share(&self, alloc: Global) -> Result<LinkE, NoMemory>
        ensures { IfOk result (λ link. link ≡ self.now) }
    {
        let id = self.id.share()?;
        let encoding = shared_id(&self.encoding)?;
        let labels = self.labels.share(alloc)?;
        Ok(LinkE {
            id,
            group: self.group,
            encoding,
            labels,
            cost: self.cost,
        })
    }
}

impl SwitchE {
    /// An equal SwitchingService over the same ids.
    pub fn share(&self, alloc: Global) -> Result<SwitchE, NoMemory>
        ensures { IfOk result (λ switch. switch ≡ self.now) }
    {
        Ok(SwitchE {
            id: self.id.share()?,
            encoding: shared_id(&self.encoding)?,
            swapping: self.swapping,
            cost: self.cost,
            inbound: shared_list(alloc, &self.inbound)?,
            outbound: shared_list(alloc, &self.outbound)?,
        })
    }
}

impl AdaptE {
    /// An equal adaptation or deadaptation over the same ids.
    pub fn share(&self, alloc: Global) -> Result<AdaptE, NoMemory>
        ensures { IfOk result (λ adapt. adapt ≡ self.now) }
    {
        Ok(AdaptE {
            id: self.id.share()?,
            function: self.function.share()?,
            cost: self.cost,
            ports: shared_ids(alloc, self.ports.as_slice())?,
        })
    }
}

impl ConvE {
    /// An equal ConversionService over the same ids.
    pub fn share(&self, alloc: Global) -> Result<ConvE, NoMemory>
        ensures { IfOk result (λ conv. conv ≡ self.now) }
    {
        Ok(ConvE {
            id: self.id.share()?,
            cost: self.cost,
            inbound: shared_ids(alloc, self.inbound.as_slice())?,
            outbound: shared_ids(alloc, self.outbound.as_slice())?,
        })
    }
}

impl Element {
    /// An equal element over the same ids.
    pub fn share(&self, alloc: Global) -> Result<Element, NoMemory>
        ensures { IfOk result (λ element. element ≡ self.now) }
    {
        match self {
            Element::Node(node) => Ok(Element::Node(node.share(alloc)?)),
            Element::Port(port) => Ok(Element::Port(port.share(alloc)?)),
            Element::Link(link) => Ok(Element::Link(link.share(alloc)?)),
            Element::Switching(switch) => Ok(Element::Switching(switch.share(alloc)?)),
            Element::Adaptation(adapt) => Ok(Element::Adaptation(adapt.share(alloc)?)),
            Element::Deadaptation(adapt) => Ok(Element::Deadaptation(adapt.share(alloc)?)),
            Element::Conversion(conv) => Ok(Element::Conversion(conv.share(alloc)?)),
        }
    }
}

impl Entry {
    /// An equal entry over the same ids.
    pub fn share(&self, alloc: Global) -> Result<Entry, NoMemory>
        ensures { IfOk result (λ entry. entry ≡ self.now) }
    {
        Ok(Entry {
            number: self.number,
            element: self.element.share(alloc)?,
            lifetime: self.lifetime,
        })
    }
}
