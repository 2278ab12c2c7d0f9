ghost use Rattle.std.specs.Prelude.{◌≡◌, ◌<◌, [], IfOk, length};
ghost use Rattle.alias_merge.specs.Groups.{ComeFromBelow};
ghost use Rattle.alias_merge.specs.Rising.{LeadBelow};
ghost use Rattle.circuit_spec.specs.Network.{elements_of, ports};
ghost use Rattle.nml_inventory.specs.Tables.{lending_nodes, listed_ports, naming_ports};
ghost use Rattle.nml_inventory.specs.Related.{AreRelations};

use crate::arcs::{Listing, PortMember, element_arcs, port_arcs};
use crate::lent::lent_ports;
use crate::loans::loans_of;
use crate::numbered::Numbered;
use crate::relation::Relation;
use crate::shared::Shared;
use alias_merge::{Groups, rising_groups, turned};
use ml_base::NoMemory;
use std::alloc::Global;

/// The relations of all elements.
#[derive(Drop)]
pub struct Relations {
    pub sources: Relation,
    pub sinks: Relation,
    pub servers: Relation,
    pub clients: Relation,
    pub inbound: Relation,
    pub outbound: Relation,
    pub lent_inbound: Shared,
    pub lent_outbound: Shared,
}

impl Relations {
    /// Reads the relations of all elements.
    pub fn new(alloc: Global, numbered: &Numbered) -> Result<Relations, NoMemory>
        ensures { IfOk result (AreRelations numbered.now) }
    {
        let nodes = lending_nodes(alloc, numbered)?;
        let loans = loans_of(alloc, numbered, &nodes)?;
        let inbound = listed_ports(alloc, numbered, Listing::Inbound)?;
        let outbound = listed_ports(alloc, numbered, Listing::Outbound)?;
        let lent_inbound = lent_ports(alloc, numbered, &loans, &inbound)?;
        let lent_outbound = lent_ports(alloc, numbered, &loans, &outbound)?;
        let sources = naming_ports(alloc, numbered, PortMember::Sources)?;
        let sinks = naming_ports(alloc, numbered, PortMember::Sinks)?;
        let servers = naming_ports(alloc, numbered, PortMember::Services)?;
        let clients = listed_ports(alloc, numbered, Listing::Provided)?;
        Ok(Relations {
            sources,
            sinks,
            servers,
            clients,
            inbound,
            outbound,
            lent_inbound,
            lent_outbound,
        })
    }
}

/// For each element the ports that name it in the member.
fn naming_ports(
    alloc: Global,
    numbered: &Numbered,
    member: PortMember,
) -> Result<Relation, NoMemory>
    ensures { IfOk result (λ relation. relation ≡ naming_ports numbered.now member) }
{
    numbered.is_merged();
    let arcs = port_arcs(alloc, numbered, member)?;
    let Ok(back) = turned(alloc, &arcs) else {
        return Err(NoMemory);
    };
    let count = numbered.elements();
    let groups = rising_groups(alloc, count, numbered.ports(), &back)?;
    Relation::new(alloc, count, &groups)
}

/// For each element the ports that it lists.
fn listed_ports(alloc: Global, numbered: &Numbered, listing: Listing) -> Result<Relation, NoMemory>
    ensures { IfOk result (λ relation. relation ≡ listed_ports numbered.now listing) }
{
    numbered.is_merged();
    let arcs = element_arcs(alloc, numbered, listing, numbered.port_ids())?;
    let count = numbered.elements();
    let groups = rising_groups(alloc, count, numbered.ports(), &arcs)?;
    Relation::new(alloc, count, &groups)
}

/// For each element the Nodes that name it as a service.
fn lending_nodes(alloc: Global, numbered: &Numbered) -> Result<Groups, NoMemory>
    ensures { IfOk result (λ nodes. nodes ≡ lending_nodes numbered.now) }
{
    numbered.is_merged();
    let arcs = element_arcs(alloc, numbered, Listing::Lending, numbered.element_ids())?;
    let Ok(back) = turned(alloc, &arcs) else {
        return Err(NoMemory);
    };
    let count = numbered.elements();
    rising_groups(alloc, count, count, &back)
}
