use keyed_hash::{Keyed, ReadDigest};
use label_sets::LabelSet;
use ml_base::Id;
use nml_elements::{
    AdaptE, ConvE, Domain, DomainList, Element, IdList, Labels, LinkE, NodeE, PortE, SwitchE,
};

/// The key of all that is read of the files: who writes any of it otherwise has another one.
pub fn key_of(domains: &DomainList) -> Keyed {
    let mut digest = ReadDigest::new();
    for domain in domains.as_slice() {
        add_domain(&mut digest, domain);
    }
    digest.key()
}

fn add_domain(digest: &mut ReadDigest, domain: &Domain) {
    digest.add_text(domain.id.text());
    add_option(digest, &domain.encoding);
    digest.add_number(domain.elements.len());
    for entry in domain.elements.as_slice() {
        add_element(digest, &entry.element);
    }
}

/// Takes in which type an element is of, and its members.
fn add_element(digest: &mut ReadDigest, element: &Element) {
    match element {
        Element::Node(node) => {
            digest.add_number(0);
            add_node(digest, node);
        }
        Element::Port(port) => {
            digest.add_number(1);
            add_port(digest, port);
        }
        Element::Link(link) => {
            digest.add_number(2);
            add_link(digest, link);
        }
        Element::Switching(service) => {
            digest.add_number(3);
            add_switching(digest, service);
        }
        Element::Adaptation(service) => {
            digest.add_number(4);
            add_adapting(digest, service);
        }
        Element::Deadaptation(service) => {
            digest.add_number(5);
            add_adapting(digest, service);
        }
        Element::Conversion(service) => {
            digest.add_number(6);
            add_conversion(digest, service);
        }
    }
}

fn add_node(digest: &mut ReadDigest, node: &NodeE) {
    digest.add_text(node.id.text());
    add_ids(digest, &node.inbound);
    add_ids(digest, &node.outbound);
    add_ids(digest, &node.services);
}

fn add_port(digest: &mut ReadDigest, port: &PortE) {
    digest.add_text(port.id.text());
    digest.add_number(u64::from(port.group));
    add_option(digest, &port.encoding);
    add_labels(digest, &port.labels);
    add_ids(digest, &port.sources);
    add_ids(digest, &port.sinks);
    add_ids(digest, &port.services);
    add_ids(digest, &port.aliases);
}

fn add_link(digest: &mut ReadDigest, link: &LinkE) {
    digest.add_text(link.id.text());
    digest.add_number(u64::from(link.group));
    digest.add_number(link.cost);
    add_option(digest, &link.encoding);
    add_labels(digest, &link.labels);
}

fn add_switching(digest: &mut ReadDigest, service: &SwitchE) {
    digest.add_text(service.id.text());
    add_option(digest, &service.encoding);
    digest.add_number(u64::from(service.swapping));
    digest.add_number(service.cost);
    add_listed(digest, &service.inbound);
    add_listed(digest, &service.outbound);
}

fn add_adapting(digest: &mut ReadDigest, service: &AdaptE) {
    digest.add_text(service.id.text());
    digest.add_text(service.function.text());
    digest.add_number(service.cost);
    add_ids(digest, &service.ports);
}

fn add_conversion(digest: &mut ReadDigest, service: &ConvE) {
    digest.add_text(service.id.text());
    digest.add_number(service.cost);
    add_ids(digest, &service.inbound);
    add_ids(digest, &service.outbound);
}

fn add_ids(digest: &mut ReadDigest, ids: &IdList) {
    digest.add_number(ids.len());
    for id in ids.as_slice() {
        digest.add_text(id.text());
    }
}

fn add_listed(digest: &mut ReadDigest, ids: &Option<IdList>) {
    match ids {
        Some(ids) => {
            digest.add_number(1);
            add_ids(digest, ids);
        }
        None => digest.add_number(0),
    }
}

fn add_option(digest: &mut ReadDigest, id: &Option<Id>) {
    match id {
        Some(id) => {
            digest.add_number(1);
            digest.add_text(id.text());
        }
        None => digest.add_number(0),
    }
}

fn add_labels(digest: &mut ReadDigest, labels: &Labels) {
    match labels {
        Labels::Of { labeltype, set } => {
            digest.add_number(1);
            digest.add_text(labeltype.text());
            add_set(digest, set);
        }
        Labels::Unlabelled => digest.add_number(0),
    }
}

fn add_set(digest: &mut ReadDigest, set: &LabelSet) {
    let ranges = set.ranges();
    digest.add_number(ranges.len() as u64);
    for range in ranges {
        digest.add_number(u64::from(range.0));
        digest.add_number(u64::from(range.1));
    }
}
