use crate::{Inventory, merge};
use ml_base::NoMemory;
use nml_elements::{DomainList, read_domain};
use std::alloc::Global;
use std::hash::BuildHasher;
use std::test::Fail;

/// No two of these files say the same.
const FILES: [&str; 22] = [
    r#"{"format":1,"topology":"t","elements":[]}"#,
    r#"{"format":1,"topology":"u","elements":[]}"#,
    r#"{"format":1,"topology":"t","encoding":"e","elements":[]}"#,
    r#"{"format":1,"topology":"t","elements":[{"type":"Port","id":"a"}]}"#,
    r#"{"format":1,"topology":"t","elements":[{"type":"Port","id":"b"}]}"#,
    r#"{"format":1,"topology":"t","elements":[{"type":"Port","id":"a"},{"type":"Port","id":"b"}]}"#,
    r#"{"format":1,"topology":"t","elements":[{"type":"Port","id":"a","encoding":"e"}]}"#,
    r#"{"format":1,"topology":"t","elements":[{"type":"Port","id":"a","isAlias":["x"]}]}"#,
    r#"{"format":1,"topology":"t","elements":[{"type":"Port","id":"a","isAlias":["x","y"]}]}"#,
    r#"{"format":1,"topology":"t","elements":[{"type":"Port","id":"a","isSource":["x"]}]}"#,
    r#"{"format":1,"topology":"t","elements":[{"type":"Port","id":"a","hasLabel":{"labeltype":"v","value":1}}]}"#,
    r#"{"format":1,"topology":"t","elements":[{"type":"Port","id":"a","hasLabel":{"labeltype":"w","value":1}}]}"#,
    r#"{"format":1,"topology":"t","elements":[{"type":"Port","id":"a","hasLabel":{"labeltype":"v","value":2}}]}"#,
    r#"{"format":1,"topology":"t","elements":[{"type":"Link","id":"a"}]}"#,
    r#"{"format":1,"topology":"t","elements":[{"type":"Link","id":"a","cost":2}]}"#,
    r#"{"format":1,"topology":"t","elements":[{"type":"Node","id":"a","hasService":["x"]}]}"#,
    r#"{"format":1,"topology":"t","elements":[{"type":"SwitchingService","id":"a"}]}"#,
    r#"{"format":1,"topology":"t","elements":[{"type":"SwitchingService","id":"a","labelSwapping":true}]}"#,
    r#"{"format":1,"topology":"t","elements":[{"type":"AdaptationService","id":"a","adaptationFunction":"f"}]}"#,
    r#"{"format":1,"topology":"t","elements":[{"type":"AdaptationService","id":"a","adaptationFunction":"g"}]}"#,
    r#"{"format":1,"topology":"t","elements":[{"type":"DeadaptationService","id":"a","adaptationFunction":"f"}]}"#,
    r#"{"format":1,"topology":"t","elements":[{"type":"ConversionService","id":"a","hasInboundPort":["x"]}]}"#,
];

/// Services 2 to 5 of a Node, the last of which has another encoding.
const LENT: &str =
    r#"{"format":1,"topology":"t","elements":[{"type":"Node","id":"n","hasInboundPort":["p"],"hasService":["a","b","c","d"]},
    {"type":"Port","id":"p"},{"type":"SwitchingService","id":"a"},{"type":"SwitchingService","id":"b"},{"type":"SwitchingService","id":"c"},
    {"type":"SwitchingService","id":"d","encoding":"e"}]}"#;

fn inventory_of(alloc: Global, file: &str) -> Result<Inventory, Fail> {
    let mut domains = DomainList::new(alloc);
    domains.push(read_domain(alloc, file.as_bytes())?)?;
    Ok(merge(alloc, domains)?)
}

/// How a number hashes in a map over the file.
fn hash_over(alloc: Global, file: &str) -> Result<u64, Fail> {
    Ok(inventory_of(alloc, file)?.hashing().hash_one(0u64))
}

#[test]
fn each_file_hashes_its_own_way(rt: HostRuntime) -> Result<(), Fail> {
    let alloc = rt.alloc();
    let mut hashes: Vec<u64> = Vec::new(alloc);
    for file in FILES {
        let hash = hash_over(alloc, file)?;
        assert_eq!(rt; hash_over(alloc, file)?, hash, "of {file}");
        assert!(rt; !hashes.contains(&hash), "of {file}");
        let Ok(()) = hashes.push(hash) else {
            return Err(NoMemory.into());
        };
    }
    Ok(())
}

#[test]
fn later_services_of_a_loan_have_the_first_as_twin(rt: HostRuntime) -> Result<(), Fail> {
    let inventory = inventory_of(rt.alloc(), LENT)?;
    assert_eq!(rt; inventory.elements(), 6);
    for number in 0..inventory.elements() {
        let twin = if number == 3 || number == 4 {
            Some(2)
        } else {
            None
        };
        assert_eq!(rt; inventory.twin_of(number), twin, "of element {number}");
    }
    Ok(())
}
