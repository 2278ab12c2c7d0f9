// The line on each fault of a file, of merging and of the layers.
use crate::rows::first_that_differs;
use std::test::Fail;

#[test]
fn faults_of_files(rt: HostRuntime) -> Result<(), Fail> {
    let alloc = rt.alloc();
    let rows = [
        ("survey no-bytes.json", 3, "fault 1 0 json\n"),
        ("survey format-2.json", 3, "fault 1 0 shape 2\n"),
        ("survey no-id.json", 3, "fault 1 1 shape 8\n"),
        ("survey label-text.json", 3, "fault 1 1 label 1\n"),
    ];
    assert_eq!(rt; first_that_differs(alloc, &rows)?, None);
    Ok(())
}

#[test]
fn faults_of_merging(rt: HostRuntime) -> Result<(), Fail> {
    let alloc = rt.alloc();
    let rows = [
        (
            "survey one.json one.json",
            3,
            "fault 2 0 duplicate-topology d 1\n",
        ),
        (
            "survey one.json a-again.json",
            3,
            "fault 2 1 duplicate-id a 1 1\n",
        ),
        (
            "survey wrong-kind.json",
            3,
            "fault 1 1 wrong-kind isSource b\n",
        ),
    ];
    assert_eq!(rt; first_that_differs(alloc, &rows)?, None);
    Ok(())
}

#[test]
fn faults_of_layers(rt: HostRuntime) -> Result<(), Fail> {
    let alloc = rt.alloc();
    let rows = [
        (
            "survey alias-eth.json alias-otn.json",
            3,
            "fault 2 1 alias-encoding a b\n",
        ),
        ("survey alias-label.json", 3, "fault 1 2 alias-label a b\n"),
        ("survey link-layer.json", 3, "fault 1 3 link-layer l b\n"),
        ("survey link-label.json", 3, "fault 1 3 link-label l b\n"),
        (
            "survey switch-layer.json",
            3,
            "fault 1 3 switch-layer s b\n",
        ),
        (
            "survey switch-label.json",
            3,
            "fault 1 3 switch-label s b\n",
        ),
    ];
    assert_eq!(rt; first_that_differs(alloc, &rows)?, None);
    Ok(())
}
