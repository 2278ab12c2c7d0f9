// Refused words, requests and reads, and counts.
use crate::rows::first_that_differs;
use std::test::Fail;

/// What is printed where the words spell no command.
pub const USAGE: &str =
    "usage: find|route FROM LABEL TO LABEL FILE.. | check|replay ANSWER FILE.. | survey FILE.. | drill N\n";

#[test]
fn usage(rt: HostRuntime) -> Result<(), Fail> {
    let alloc = rt.alloc();
    let rows = [
        ("find", 2, USAGE),
        ("route", 2, USAGE),
        ("find a 07 b any one.json", 2, USAGE),
        ("drill 0", 2, USAGE),
        ("survey", 2, USAGE),
    ];
    assert_eq!(rt; first_that_differs(alloc, &rows)?, None);
    Ok(())
}

#[test]
fn requests(rt: HostRuntime) -> Result<(), Fail> {
    let alloc = rt.alloc();
    let rows = [
        ("find a any q any one.json", 4, "request unknown-port q\n"),
        (
            "route a 7 b any one.json",
            4,
            "request label-not-here a 7\n",
        ),
        ("find a any b any empty.json", 4, "request unknown-port a\n"),
        (
            "find p 7 q any vlan.json",
            4,
            "request label-not-here p 7\n",
        ),
    ];
    assert_eq!(rt; first_that_differs(alloc, &rows)?, None);
    Ok(())
}

#[test]
fn missing_files(rt: HostRuntime) -> Result<(), Fail> {
    let alloc = rt.alloc();
    let rows = [
        ("find a any b any one.json gone.json", 5, "read 2 absent\n"),
        ("find a any b any gone.json", 5, "read 1 absent\n"),
    ];
    assert_eq!(rt; first_that_differs(alloc, &rows)?, None);
    Ok(())
}

#[test]
fn counts(rt: HostRuntime) -> Result<(), Fail> {
    let alloc = rt.alloc();
    let rows = [(
        "survey tunnel.json",
        0,
        "survey\ndomain d 7\nports 4\nclasses 4\nlinks 1\nservices 2\nopen-references 0\n",
    )];
    assert_eq!(rt; first_that_differs(alloc, &rows)?, None);
    Ok(())
}
