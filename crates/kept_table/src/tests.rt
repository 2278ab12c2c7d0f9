use crate::building::table_of;
use crate::gathered::Gathered;
use keyed_hash::ReadDigest;
use label_sets::{LabelFault, LabelSet};
use ml_base::Id;
use nml_elements::Labels;
use std::alloc::Global;
use std::test::Fail;

fn labels(alloc: Global, labeltype: &Id, text: &str) -> Result<Labels, LabelFault> {
    let set = LabelSet::parse(alloc, text)?;
    let Ok(labeltype) = labeltype.share() else {
        return Err(LabelFault::NoMemory);
    };
    Ok(Labels::Of { labeltype, set })
}

#[test]
fn stated_labels_are_kept_apart(rt: HostRuntime) -> Result<(), Fail> {
    let alloc = rt.alloc();
    let vlan = Id::new(alloc, "vlan")?;
    let lambda = Id::new(alloc, "lambda")?;
    let all = labels(alloc, &vlan, "2-4094")?;
    let gathered = Gathered::new(alloc, ReadDigest::new().key())
        .with_labels(alloc, &all)?
        .with_labels(alloc, &Labels::Unlabelled)?
        .with_labels(alloc, &labels(alloc, &lambda, "7,9")?)?
        .with_labels(alloc, &all)?
        .with_single(alloc, &vlan, 2000)?
        .with_single(alloc, &vlan, 1780)?;
    let table = table_of(alloc, gathered)?;
    assert_eq!(rt; table.types(), 2);
    assert_eq!(rt; table.labels(&vlan), [2, 1780, 2000].as_slice());
    assert_eq!(rt; table.labels(&lambda), [7].as_slice());
    Ok(())
}

#[test]
fn without_labels_there_is_no_type(rt: HostRuntime) -> Result<(), Fail> {
    let alloc = rt.alloc();
    let gathered = Gathered::new(alloc, ReadDigest::new().key()).with_labels(
        alloc,
        &Labels::Unlabelled,
    )?;
    let table = table_of(alloc, gathered)?;
    assert_eq!(rt; table.types(), 0);
    assert_eq!(rt; table.labels(&Id::new(alloc, "vlan")?), [].as_slice());
    Ok(())
}
