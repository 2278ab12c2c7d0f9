use crate::{Id, IdFault, Items, Weight};
use std::test::Fail;

#[test]
fn sums_are_capped(rt: HostRuntime) -> Result<(), Fail> {
    let dearest = Weight::known(18446744073709551615, 1);
    assert_eq!(rt; dearest.plus(Weight::known(1, 1)), Weight::Past);
    let longest = Weight::known(0, 1099511627776);
    assert_eq!(rt; longest.plus(Weight::known(0, 1)), longest);
    assert_eq!(rt;
        Weight::zero().plus(Weight::known(3, 2)),
        Weight::known(3, 2)
    );
    assert!(rt; Weight::known(2, 9).is_at_most(Weight::known(3, 1)));
    assert!(rt; !Weight::known(3, 4).is_at_most(Weight::known(3, 3)));
    assert!(rt; !Weight::Past.is_at_most(dearest));
    Ok(())
}

#[test]
fn ids_are_visible_texts(rt: HostRuntime) -> Result<(), Fail> {
    let id = Id::new(rt.alloc(), "urn:x")?;
    assert_eq!(rt; id.share()?.text(), "urn:x");
    for text in ["", "a b", "\u{7f}", "é"] {
        match Id::new(rt.alloc(), text) {
            Ok(_) => assert!(rt; false, "taken: {text}"),
            Err(fault) => assert_eq!(rt; fault, IdFault::Text),
        }
    }
    Ok(())
}

#[test]
fn items_keep_their_order(rt: HostRuntime) -> Result<(), Fail> {
    let mut items = Items::new(rt.alloc());
    items.push(7)?;
    items.push(5)?;
    assert_eq!(rt; items.len(), 2);
    assert_eq!(rt; items.get(1).copied(), Some(5));
    assert_eq!(rt; items.get(2).copied(), None);
    Ok(())
}
