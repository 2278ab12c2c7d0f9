// Lists of the cheapest walks.
use crate::rows::first_that_differs;
use std::test::Fail;

#[test]
fn cheapest_lists(rt: HostRuntime) -> Result<(), Fail> {
    let alloc = rt.alloc();
    let rows = [
        (
            "k-find 3 a any b any two.json",
            0,
            "circuits 1\nrequest a any b any\nwalk 1 2 1\nhop 1 link l2 a - b - d\nwalk 2 3 1\nhop 1 link l1 a - b - d\nmore none\nend\n",
        ),
        (
            "k-find 2 a any c any zero.json",
            0,
            "circuits 1\nrequest a any c any\nwalk 1 0 2\nhop 1 link l1 a - b - d\nhop 2 link l3 b - c - d\nwalk 2 0 4\nhop 1 link l1 a - b - d\nhop 2 link l2 b - a - d\nhop 3 link l1 a - b - d\nhop 4 link l3 b - c - d\nmore enough\nend\n",
        ),
        (
            "k-find 2 a any c any big.json",
            7,
            "circuits 1\nrequest a any c any\nmore past\nend\n",
        ),
        (
            "k-find 2 b any a any one.json",
            1,
            "circuits 1\nrequest b any a any\nmore none\nend\n",
        ),
        (
            "k-find 2 a any q any one.json",
            4,
            "request unknown-port q\n",
        ),
    ];
    assert_eq!(rt; first_that_differs(alloc, &rows)?, None);
    Ok(())
}
