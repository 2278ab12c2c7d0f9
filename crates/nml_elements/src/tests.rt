use crate::{Element, Labels, Lifetime, ReadFault, Window, during, read_domain, write_domain};
use std::test::Fail;

#[test]
fn first_faults(rt: HostRuntime) -> Result<(), Fail> {
    let rows = [
        (r#""#, ReadFault::Json),
        (
            r#"[]"#,
            ReadFault::Shape {
                element: 0,
                rule: 1,
            },
        ),
        (
            r#"{"format":2,"topology":"d","elements":[]}"#,
            ReadFault::Shape {
                element: 0,
                rule: 2,
            },
        ),
        (
            r#"{"format":1,"elements":[]}"#,
            ReadFault::Shape {
                element: 0,
                rule: 3,
            },
        ),
        (
            r#"{"format":1,"topology":"d","encoding":7,"elements":3}"#,
            ReadFault::Shape {
                element: 0,
                rule: 4,
            },
        ),
        (
            r#"{"format":1,"topology":"d","encoding":null,"elements":3}"#,
            ReadFault::Shape {
                element: 0,
                rule: 5,
            },
        ),
        (
            r#"{"format":1,"topology":"d","elements":[{"type":"X"},3]}"#,
            ReadFault::Shape {
                element: 2,
                rule: 6,
            },
        ),
        (
            r#"{"format":1,"topology":"d","elements":[{"id":"a"}]}"#,
            ReadFault::Shape {
                element: 1,
                rule: 7,
            },
        ),
        (
            r#"{"format":1,"topology":"d","elements":[{"type":"Port"}]}"#,
            ReadFault::Shape {
                element: 1,
                rule: 8,
            },
        ),
        (
            r#"{"format":1,"topology":"d","elements":[{"type":"Link","id":"a b"}]}"#,
            ReadFault::Shape {
                element: 1,
                rule: 8,
            },
        ),
        (
            r#"{"format":1,"topology":"d","elements":[{"type":"Port","id":"p","isSource":"l"}]}"#,
            ReadFault::Shape {
                element: 1,
                rule: 9,
            },
        ),
        (
            r#"{"format":1,"topology":"d","elements":[{"type":"SwitchingService","id":"s","labelSwapping":1}]}"#,
            ReadFault::Shape {
                element: 1,
                rule: 10,
            },
        ),
        (
            r#"{"format":1,"topology":"d","elements":[{"type":"AdaptationService","id":"a"}]}"#,
            ReadFault::Shape {
                element: 1,
                rule: 11,
            },
        ),
        (
            r#"{"format":1,"topology":"d","elements":[{"type":"Link","id":"l","cost":-1}]}"#,
            ReadFault::Shape {
                element: 1,
                rule: 12,
            },
        ),
        (
            r#"{"format":1,"topology":"d","elements":[{"type":"Port","id":"p","hasLabel":{"labeltype":"v","value":4294967296}}]}"#,
            ReadFault::Shape {
                element: 1,
                rule: 13,
            },
        ),
        (
            r#"{"format":1,"topology":"d","elements":[{"type":"PortGroup","id":"p","hasLabelGroup":{"labeltype":"v"}}]}"#,
            ReadFault::Shape {
                element: 1,
                rule: 14,
            },
        ),
        (
            r#"{"format":1,"topology":"d","elements":[{"type":"PortGroup","id":"p","hasLabelGroup":{"labeltype":"v","values":"5-3"}}]}"#,
            ReadFault::Label { element: 1, at: 1 },
        ),
    ];
    for (text, want) in rows {
        match read_domain(rt.alloc(), text.as_bytes()) {
            Ok(_) => assert!(rt; false, "taken: {text}"),
            Err(fault) => assert_eq!(rt; fault, want, "of {text}"),
        }
    }
    Ok(())
}

#[test]
fn reads_a_port_and_a_group(rt: HostRuntime) -> Result<(), Fail> {
    let text =
        r#"{"format":1,"topology":"d","elements":[{"type":"Port","id":"a","isSource":["l","l"],"isSink":null},{"type":"BidirectionalPort"},{"type":"LinkGroup","id":"l","hasLabelGroup":{"labeltype":"vlan","values":"300,100-200,150-250"}}]}"#;
    let domain = read_domain(rt.alloc(), text.as_bytes())?;
    assert_eq!(rt; domain.elements.len(), 2);
    match domain.elements.get(0) {
        Some(entry) => match &entry.element {
            Element::Port(port) => {
                assert_eq!(rt; entry.number, 1);
                assert_eq!(rt; port.sources.len(), 2);
                assert_eq!(rt; port.sinks.len(), 0);
            }
            _ => assert!(rt; false, "no port"),
        },
        None => assert!(rt; false, "no entry"),
    }
    match domain.elements.get(1) {
        Some(entry) => match &entry.element {
            Element::Link(link) => match &link.labels {
                Labels::Of { set, .. } => {
                    assert_eq!(rt; entry.number, 3);
                    assert_eq!(rt; link.cost, 1);
                    assert_eq!(rt; set.ranges(), [(100, 250), (300, 300)].as_slice());
                }
                Labels::Unlabelled => assert!(rt; false, "no labels"),
            },
            _ => assert!(rt; false, "no link"),
        },
        None => assert!(rt; false, "no second entry"),
    }
    Ok(())
}

#[test]
fn what_is_written_is_what_was_read(rt: HostRuntime) -> Result<(), Fail> {
    let texts = [
        r#"{"elements":[{"id":"a","isSource":["l"],"type":"Port"},{"id":"b","isSink":["l"],"type":"Port"},{"cost":1,"id":"l","type":"Link"}],"format":1,"topology":"d"}"#,
        r#"{"elements":[],"format":1,"topology":"d"}"#,
        r#"{"elements":[{"hasInboundPort":["p"],"hasOutboundPort":["p","p"],"hasService":["s"],"id":"n","type":"Node"},{"encoding":"eth","hasLabel":{"labeltype":"vlan","value":4294967295},"hasService":["a"],"id":"p","isAlias":["q"],"isSink":["l"],"isSource":["k"],"type":"Port"},{"hasLabelGroup":{"labeltype":"vlan","values":"7,100-250,300"},"id":"q","type":"PortGroup"},{"cost":0,"encoding":"eth","id":"l","type":"Link"},{"cost":18446744073709551615,"hasLabelGroup":{"labeltype":"vlan","values":"0-4294967295"},"id":"k","type":"LinkGroup"},{"cost":1,"hasInboundPort":[],"hasOutboundPort":["p"],"id":"s","labelSwapping":true,"type":"SwitchingService"},{"cost":1,"id":"t","type":"SwitchingService"},{"adaptationFunction":"gfp","cost":1,"id":"a","providesPort":["p"],"type":"AdaptationService"},{"adaptationFunction":"gfp","cost":1,"id":"d","type":"DeadaptationService"},{"cost":2,"hasInboundPort":["p"],"hasOutboundPort":["q"],"id":"c","type":"ConversionService"}],"encoding":"otn","format":1,"topology":"d"}"#,
    ];
    for text in texts {
        let domain = read_domain(rt.alloc(), text.as_bytes())?;
        let bytes = write_domain(rt.alloc(), &domain)?;
        assert_eq!(rt; bytes.as_slice(), text.as_bytes());
    }
    Ok(())
}

#[test]
fn lifetimes_that_are_none(rt: HostRuntime) -> Result<(), Fail> {
    let rows = [
        "7",
        "true",
        "[1,2]",
        r#"{"start":"1"}"#,
        r#"{"start":-1}"#,
        r#"{"start":1.5}"#,
        r#"{"start":18446744073709551616}"#,
        r#"{"end":"9"}"#,
        r#"{"end":0}"#,
        r#"{"start":9,"end":9}"#,
        r#"{"start":9,"end":8}"#,
    ];
    for row in rows {
        let text = format!(in rt.alloc();
            r#"{{"format":1,"topology":"d","elements":[{{"type":"Link","id":"l","existsDuring":{row}}}]}}"#
        )?;
        match read_domain(rt.alloc(), text.as_bytes()) {
            Ok(_) => assert!(rt; false, "taken: {row}"),
            Err(fault) => assert_eq!(rt;
                fault,
                ReadFault::Shape {
                    element: 1,
                    rule: 15
                },
                "of {row}"
            ),
        }
    }
    Ok(())
}

#[test]
fn lifetimes_that_are_read(rt: HostRuntime) -> Result<(), Fail> {
    let rows = [
        ("null", None),
        ("{}", Lifetime::new(0, None)),
        (r#"{"start":null,"end":7}"#, Lifetime::new(0, Some(7))),
        (r#"{"start":3}"#, Lifetime::new(3, None)),
        (
            r#"{"start":18446744073709551614,"end":18446744073709551615}"#,
            Lifetime::new(18446744073709551614, Some(18446744073709551615)),
        ),
    ];
    for (row, want) in rows {
        let text = format!(in rt.alloc();
            r#"{{"format":1,"topology":"d","elements":[{{"type":"Link","id":"l","existsDuring":{row}}}]}}"#
        )?;
        let domain = read_domain(rt.alloc(), text.as_bytes())?;
        match domain.elements.get(0) {
            Some(entry) => assert!(rt; entry.lifetime == want, "of {row}"),
            None => assert!(rt; false, "no entry"),
        }
    }
    Ok(())
}

#[test]
fn what_is_there_throughout_a_window(rt: HostRuntime) -> Result<(), Fail> {
    let text =
        r#"{"elements":[{"id":"a","isSource":["l1","l2"],"type":"Port"},{"id":"b","isSink":["l1","l2"],"type":"Port"},{"cost":1,"existsDuring":{"end":200,"start":100},"id":"l1","type":"Link"},{"cost":5,"id":"l2","type":"Link"}],"format":1,"topology":"d"}"#;
    let life = read_domain(rt.alloc(), text.as_bytes())?;
    let written = write_domain(rt.alloc(), &life)?;
    assert_eq!(rt; written.as_slice(), text.as_bytes());
    let rows = [(100, 201, 3, 4), (99, 200, 3, 4), (100, 200, 4, 3)];
    for (from, to, count, third) in rows {
        let Some(window) = Window::new(from, to) else {
            assert!(rt; false, "no window");
            return Ok(());
        };
        let there = during(rt.alloc(), &life, &window)?;
        assert_eq!(rt; there.elements.len(), count);
        match there.elements.get(2) {
            Some(entry) => assert_eq!(rt; entry.number, third),
            None => assert!(rt; false, "no third entry"),
        }
    }
    Ok(())
}
