use crate::gathering::{add_place, add_ranges};
use crate::opening::in_order;
use crate::spanning::span_of;
use circuit_spec::PlaceName;
use ml_base::Id;
use std::test::Fail;

#[test]
fn places_by_class_and_label(rt: HostRuntime) -> Result<(), Fail> {
    let alloc = rt.alloc();
    let first = Id::new(alloc, "a")?;
    let second = Id::new(alloc, "b")?;
    let mut places = Vec::new(alloc);
    add_ranges(&mut places, &second, &[4, 5, 9, 12, 21], &[(5, 8), (9, 20)])?;
    add_place(&mut places, &first, None)?;
    add_place(&mut places, &second, Some(9))?;
    let places = in_order(places)?;
    let want = [("a", None), ("b", Some(5)), ("b", Some(9)), ("b", Some(12))];
    assert_eq!(rt; places.len(), want.len());
    for (place, row) in places.iter().zip(&want) {
        assert_eq!(rt; place.class.text(), row.0);
        assert_eq!(rt; place.label, row.1);
    }
    for (class, begin, end) in [("a", 0, 1), ("b", 1, 4), ("aa", 1, 1), ("c", 4, 4)] {
        let span = span_of(&places, &Id::new(alloc, class)?);
        assert_eq!(rt; span.first, begin);
        assert_eq!(rt; span.end, end);
    }
    Ok(())
}
