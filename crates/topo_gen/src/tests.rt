use crate::generate;
use ml_base::Wish;
use nml_elements::{read_domain, write_domain};
use std::test::Fail;

const GROUND: &str =
    r#"{"elements":[{"hasService":["a1","b1"],"id":"x0","isSource":["l1","l2","l3","l4","l5","l6","l7","l8"],"type":"Port"},{"hasService":["u1","v1"],"id":"y0","isSink":["l1","l2","l3","l4","l5","l6","l7","l8"],"type":"Port"},{"cost":1,"id":"l1","type":"Link"},{"cost":2,"id":"l2","type":"Link"},{"cost":3,"id":"l3","type":"Link"},{"cost":4,"id":"l4","type":"Link"},{"cost":5,"id":"l5","type":"Link"},{"cost":6,"id":"l6","type":"Link"},{"cost":7,"id":"l7","type":"Link"},{"cost":8,"id":"l8","type":"Link"}],"format":1,"topology":"d0"}"#;

const TUNNEL: &str =
    r#"{"elements":[{"id":"x1","type":"Port"},{"id":"m1","type":"Port"},{"id":"y1","type":"Port"},{"adaptationFunction":"F1","cost":1,"id":"a1","providesPort":["x1"],"type":"AdaptationService"},{"adaptationFunction":"G1","cost":1,"id":"b1","providesPort":["m1"],"type":"AdaptationService"},{"adaptationFunction":"F1","cost":1,"id":"u1","providesPort":["m1"],"type":"DeadaptationService"},{"adaptationFunction":"G1","cost":1,"id":"v1","providesPort":["y1"],"type":"DeadaptationService"}],"format":1,"topology":"d1"}"#;

#[test]
fn one_level(rt: HostRuntime) -> Result<(), Fail> {
    let made = generate(rt.alloc(), 1)?;
    assert_eq!(rt; made.domains.len(), 2);
    for (domain, text) in made.domains.as_slice().iter().zip(&[GROUND, TUNNEL]) {
        let bytes = write_domain(rt.alloc(), domain)?;
        assert_eq!(rt; bytes.as_slice(), text.as_bytes());
    }
    Ok(())
}

#[test]
fn domains_are_read_back(rt: HostRuntime) -> Result<(), Fail> {
    let made = generate(rt.alloc(), 10)?;
    assert_eq!(rt; made.domains.len(), 11);
    assert_eq!(rt; made.request.from.text(), "x10");
    assert_eq!(rt; made.request.to.text(), "y10");
    assert_eq!(rt;
        (made.request.from_wish, made.request.to_wish),
        (Wish::Any, Wish::Any)
    );
    for domain in made.domains.as_slice() {
        let bytes = write_domain(rt.alloc(), domain)?;
        let again = read_domain(rt.alloc(), bytes.as_slice())?;
        assert_eq!(rt;
            write_domain(rt.alloc(), &again)?.as_slice(),
            bytes.as_slice()
        );
    }
    Ok(())
}
