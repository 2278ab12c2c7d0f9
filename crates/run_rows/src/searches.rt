// Documents of searches.
use crate::rows::{first_that_differs, shows};
use std::test::Fail;

#[test]
fn costs(rt: HostRuntime) -> Result<(), Fail> {
    let alloc = rt.alloc();
    let rows = [
        (
            "find a any b any one.json",
            0,
            "circuit 1\nrequest a any b any\noutcome found 1 1\nhop 1 link l a - b - d\ndomain d\nrule 1 carry l a - b -\ntop a - 0 0\ntop b - 1 1\nend\n",
        ),
        (
            "find a any b any named-twice.json",
            0,
            "circuit 1\nrequest a any b any\noutcome found 1 1\nhop 1 link l a - b - d\ndomain d\nrule 1 carry l a - b -\ntop a - 0 0\ntop b - 1 1\nend\n",
        ),
        (
            "route a any b any one.json",
            0,
            "circuit 1\nrequest a any b any\noutcome found 1 1\nhop 1 link l a - b - d\ndomain d\nrule 1 carry l a - b -\nend\n",
        ),
        (
            "find b any a any one.json",
            1,
            "circuit 1\nrequest b any a any\noutcome none\ntop b - 0 0\nend\n",
        ),
        (
            "find a any a any one.json",
            0,
            "circuit 1\nrequest a any a any\noutcome found 0 0\ntop a - 0 0\ntop b - 1 1\nend\n",
        ),
    ];
    assert_eq!(rt; first_that_differs(alloc, &rows)?, None);
    Ok(())
}

#[test]
fn cheapest_walks(rt: HostRuntime) -> Result<(), Fail> {
    let alloc = rt.alloc();
    let rows = [
        (
            "find a any b any two.json",
            0,
            "circuit 1\nrequest a any b any\noutcome found 2 1\nhop 1 link l2 a - b - d\ndomain d\nrule 1 carry l2 a - b -\ntop a - 0 0\ntop b - 2 1\nend\n",
        ),
        (
            "find a any z any three.json",
            0,
            "circuit 1\nrequest a any z any\noutcome found 3 3\nhop 1 link l1 a - b - d\nhop 2 link l2 b - c - d\nhop 3 link l3 c - z - d\ndomain d\nrule 1 carry l1 a - b -\nrule 2 carry l2 b - c -\nrule 3 carry l3 c - z -\ntop a - 0 0\ntop b - 1 1\ntop c - 2 2\ntop z - 3 3\nend\n",
        ),
        (
            "find a any c any zero.json",
            0,
            "circuit 1\nrequest a any c any\noutcome found 0 2\nhop 1 link l1 a - b - d\nhop 2 link l3 b - c - d\ndomain d\nrule 1 carry l1 a - b -\nrule 2 carry l3 b - c -\ntop a - 0 0\ntop b - 0 1\ntop c - 0 2\nend\n",
        ),
    ];
    assert_eq!(rt; first_that_differs(alloc, &rows)?, None);
    Ok(())
}

#[test]
fn costs_near_the_end(rt: HostRuntime) -> Result<(), Fail> {
    let alloc = rt.alloc();
    let rows = [
        (
            "find a any b any big.json",
            0,
            "circuit 1\nrequest a any b any\noutcome found 18446744073709551615 1\nhop 1 link l1 a - b - d\ndomain d\nrule 1 carry l1 a - b -\ntop a - 0 0\ntop b - 18446744073709551615 1\ntop c - past -\nend\n",
        ),
        (
            "find a any c any big.json",
            7,
            "circuit 1\nrequest a any c any\noutcome past\ntop a - 0 0\ntop b - 18446744073709551615 1\ntop c - past -\nend\n",
        ),
    ];
    assert_eq!(rt; first_that_differs(alloc, &rows)?, None);
    Ok(())
}

#[test]
fn labels(rt: HostRuntime) -> Result<(), Fail> {
    let alloc = rt.alloc();
    let rows = [
        (
            "find p 100 q 200 vlan.json",
            1,
            "circuit 1\nrequest p 100 q 200\noutcome none\ntop p 100 0 0\ntop q 100 1 1\nend\n",
        ),
        (
            "find p 100 q 200 swap.json",
            0,
            "circuit 1\nrequest p 100 q 200\noutcome found 1 1\nhop 1 cross s p 100 q 200 d\ndomain d\nrule 1 swap s p 100 q 200\ntop p 100 0 0\ntop q 100 1 1\ntop q 101 1 1\ntop q 200 1 1\nend\n",
        ),
        (
            "find a any b any node.json",
            0,
            "circuit 1\nrequest a any b any\noutcome found 1 1\nhop 1 cross s a - b - d\ndomain d\nrule 1 connect s a - b -\ntop a - 0 0\ntop b - 1 1\nend\n",
        ),
    ];
    assert_eq!(rt; first_that_differs(alloc, &rows)?, None);
    Ok(())
}

#[test]
fn wide_label_sets(rt: HostRuntime) -> Result<(), Fail> {
    let alloc = rt.alloc();
    let rows = [
        (
            "find p 7 q 7 wide.json",
            0,
            "circuit 1\nrequest p 7 q 7\noutcome found 1 1\nhop 1 link l p 7 q 7 d\ndomain d\nrule 1 carry l p 7 q 7\ntop p 7 0 0\ntop q 7 1 1\nend\n",
        ),
        (
            "find p any q any wide.json",
            0,
            "circuit 1\nrequest p any q any\noutcome found 1 1\nhop 1 link l p 0 q 0 d\ndomain d\nrule 1 carry l p 0 q 0\ntop p 0 0 0\ntop q 0 1 1\nend\n",
        ),
    ];
    assert_eq!(rt; first_that_differs(alloc, &rows)?, None);
    Ok(())
}

#[test]
fn layers(rt: HostRuntime) -> Result<(), Fail> {
    let alloc = rt.alloc();
    let rows = [
        (
            "find c1 any c2 any tunnel.json",
            0,
            "circuit 1\nrequest c1 any c2 any\noutcome found 3 3\nhop 1 adapt ad c1 - s1 - d\nhop 2 link t s1 - s2 - d\nhop 3 deadapt de s2 - c2 - d\ndomain d\nrule 1 wrap ad c1 - s1 -\nrule 2 carry t s1 - s2 -\nrule 3 unwrap de s2 - c2 -\ntop c1 - 0 0\ntop c2 - 3 3\nseg s1 - s1 - 0 0\nseg s1 - s2 - 1 1\nend\n",
        ),
        (
            "find c1 any c2 any other.json",
            1,
            "circuit 1\nrequest c1 any c2 any\noutcome none\ntop c1 - 0 0\nseg s1 - s1 - 0 0\nseg s1 - s2 - 1 1\nend\n",
        ),
        (
            "find c1 any c2 any labelled.json",
            0,
            "circuit 1\nrequest c1 any c2 any\noutcome found 3 3\nhop 1 adapt ad c1 105 s1 - d\nhop 2 link t s1 - s2 - d\nhop 3 deadapt de s2 - c2 105 d\ndomain d\nrule 1 wrap ad c1 105 s1 -\nrule 2 carry t s1 - s2 -\nrule 3 unwrap de s2 - c2 105\ntop c1 100 0 0\ntop c1 105 0 0\ntop c2 105 3 3\nseg s1 - s1 - 0 0\nseg s1 - s2 - 1 1\nend\n",
        ),
        (
            "find x1 any y1 any again.json",
            0,
            "circuit 1\nrequest x1 any y1 any\noutcome found 6 6\nhop 1 adapt f x1 - x0 - d\nhop 2 link l x0 - y0 - d\nhop 3 deadapt u y0 - m1 - d\nhop 4 adapt g m1 - x0 - d again 1\nhop 5 link l x0 - y0 - d again 2\nhop 6 deadapt v y0 - y1 - d\ndomain d\nrule 1 wrap f x1 - x0 -\nrule 2 carry l x0 - y0 -\nrule 3 unwrap u y0 - m1 -\nrule 4 wrap g m1 - x0 -\nrule 5 carry l x0 - y0 -\nrule 6 unwrap v y0 - y1 -\ntop m1 - 3 3\ntop x1 - 0 0\ntop y1 - 6 6\nseg x0 - x0 - 0 0\nseg x0 - y0 - 1 1\nend\n",
        ),
    ];
    assert_eq!(rt; first_that_differs(alloc, &rows)?, None);
    Ok(())
}

#[test]
fn a_further_element(rt: HostRuntime) -> Result<(), Fail> {
    let alloc = rt.alloc();
    let rows = [(
        "find a any b any further.json",
        0,
        "circuit 1\nrequest a any b any\noutcome found 1 1\nhop 1 link l a - b - d\ndomain d\nrule 1 carry l a - b -\ntop a - 0 0\ntop b - 1 1\nend\n",
    )];
    assert_eq!(rt; first_that_differs(alloc, &rows)?, None);
    Ok(())
}

#[test]
fn three_domains(rt: HostRuntime) -> Result<(), Fail> {
    let alloc = rt.alloc();
    let rows = [(
        "find a-in 1780 c-host 2000 alpha.json beta.json gamma.json",
        0,
        "circuit 1\nrequest a-in 1780 c-host 2000\noutcome found 12 12\nhop 1 cross a-sw a-in 1780 a-c 1780 alpha\nhop 2 adapt a-ad a-c 1780 a-s - alpha\nhop 3 link a-t a-s - a-x - alpha\nhop 4 cross b-sw b-i - b-o - beta\nhop 5 link b-t b-o - b-p - beta\nhop 6 deadapt b-de b-p - b-c 1780 beta\nhop 7 cross b-es b-c 1780 b-e 2000 beta\nhop 8 link b-l b-e 2000 b-f 2000 beta\nhop 9 cross c-sw1 c-in 2000 c-m 2000 gamma\nhop 10 link c-l1 c-m 2000 c-n 2000 gamma\nhop 11 cross c-sw2 c-n 2000 c-out 2000 gamma\nhop 12 link c-l2 c-out 2000 c-host 2000 gamma\ndomain alpha\nrule 1 connect a-sw a-in 1780 a-c 1780\nrule 2 wrap a-ad a-c 1780 a-s -\nrule 3 carry a-t a-s - a-x -\ndomain beta\nrule 4 connect b-sw b-i - b-o -\nrule 5 carry b-t b-o - b-p -\nrule 6 unwrap b-de b-p - b-c 1780\nrule 7 swap b-es b-c 1780 b-e 2000\nrule 8 carry b-l b-e 2000 b-f 2000\ndomain gamma\nrule 9 connect c-sw1 c-in 2000 c-m 2000\nrule 10 carry c-l1 c-m 2000 c-n 2000\nrule 11 connect c-sw2 c-n 2000 c-out 2000\nrule 12 carry c-l2 c-out 2000 c-host 2000\ntop a-c 1780 1 1\ntop a-in 1780 0 0\ntop b-c 1780 6 6\ntop b-e 2 7 7\ntop b-e 1780 7 7\ntop b-e 2000 7 7\ntop b-f 2 8 8\ntop b-f 1780 8 8\ntop b-f 2000 8 8\ntop c-host 2 12 12\ntop c-host 1780 12 12\ntop c-host 2000 12 12\ntop c-m 2 9 9\ntop c-m 1780 9 9\ntop c-m 2000 9 9\ntop c-n 2 10 10\ntop c-n 1780 10 10\ntop c-n 2000 10 10\ntop c-out 2 11 11\ntop c-out 1780 11 11\ntop c-out 2000 11 11\nseg a-s - a-s - 0 0\nseg a-s - a-x - 1 1\nseg a-s - b-o - 2 2\nseg a-s - b-p - 3 3\nend\n",
    )];
    assert_eq!(rt; first_that_differs(alloc, &rows)?, None);
    Ok(())
}

#[test]
fn one_link_or_three(rt: HostRuntime) -> Result<(), Fail> {
    let lines = "outcome found 3 1\nhop 1 link l a - z - d\n";
    assert!(rt; shows(rt.alloc(), "find a any z any three-cheap.json", 0, lines)?);
    Ok(())
}

#[test]
fn four_layers(rt: HostRuntime) -> Result<(), Fail> {
    let lines =
        "outcome found 9 9\ntop c0 - 0 0\ntop e0 - 9 9\nseg c1 - c1 - 0 0\nseg c1 - e1 - 7 7\nseg c2 - c2 - 0 0\nseg c2 - e2 - 5 5\nseg c3 - c3 - 0 0\nseg c3 - e3 - 3 3\nseg c4 - c4 - 0 0\nseg c4 - e4 - 1 1\n";
    assert!(rt; shows(rt.alloc(), "find c0 any e0 any four.json", 0, lines)?);
    Ok(())
}
