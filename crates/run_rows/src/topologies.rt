//! Accepted topologies for the rows.
use io_edges::MemFiles;
use ml_base::NoMemory;
use std::alloc::{AllocError, Global};

const TWO: &str =
    "{\"elements\":[{\"id\":\"a\",\"isSource\":[\"l1\",\"l2\"],\"type\":\"Port\"},{\"id\":\"b\",\"isSink\":[\"l1\",\"l2\"],\"type\":\"Port\"},{\"cost\":3,\"id\":\"l1\",\"type\":\"Link\"},{\"cost\":2,\"id\":\"l2\",\"type\":\"Link\"}],\"format\":1,\"topology\":\"d\"}";

const THREE: &str =
    "{\"elements\":[{\"id\":\"a\",\"isSource\":[\"l\",\"l1\"],\"type\":\"Port\"},{\"id\":\"b\",\"isSink\":[\"l1\"],\"isSource\":[\"l2\"],\"type\":\"Port\"},{\"id\":\"c\",\"isSink\":[\"l2\"],\"isSource\":[\"l3\"],\"type\":\"Port\"},{\"id\":\"z\",\"isSink\":[\"l\",\"l3\"],\"type\":\"Port\"},{\"cost\":9,\"id\":\"l\",\"type\":\"Link\"},{\"id\":\"l1\",\"type\":\"Link\"},{\"id\":\"l2\",\"type\":\"Link\"},{\"id\":\"l3\",\"type\":\"Link\"}],\"format\":1,\"topology\":\"d\"}";

const BIG: &str =
    "{\"elements\":[{\"id\":\"a\",\"isSource\":[\"l1\"],\"type\":\"Port\"},{\"id\":\"b\",\"isSink\":[\"l1\"],\"isSource\":[\"l2\"],\"type\":\"Port\"},{\"id\":\"c\",\"isSink\":[\"l2\"],\"type\":\"Port\"},{\"cost\":18446744073709551615,\"id\":\"l1\",\"type\":\"Link\"},{\"id\":\"l2\",\"type\":\"Link\"}],\"format\":1,\"topology\":\"d\"}";

const ZERO: &str =
    "{\"elements\":[{\"id\":\"a\",\"isSink\":[\"l2\"],\"isSource\":[\"l1\"],\"type\":\"Port\"},{\"id\":\"b\",\"isSink\":[\"l1\"],\"isSource\":[\"l2\",\"l3\"],\"type\":\"Port\"},{\"id\":\"c\",\"isSink\":[\"l3\"],\"type\":\"Port\"},{\"cost\":0,\"id\":\"l1\",\"type\":\"Link\"},{\"cost\":0,\"id\":\"l2\",\"type\":\"Link\"},{\"cost\":0,\"id\":\"l3\",\"type\":\"Link\"}],\"format\":1,\"topology\":\"d\"}";

const TUNNEL: &str =
    "{\"elements\":[{\"encoding\":\"eth\",\"id\":\"c1\",\"type\":\"Port\"},{\"encoding\":\"otn\",\"hasService\":[\"ad\"],\"id\":\"s1\",\"isSource\":[\"t\"],\"type\":\"Port\"},{\"encoding\":\"otn\",\"hasService\":[\"de\"],\"id\":\"s2\",\"isSink\":[\"t\"],\"type\":\"Port\"},{\"encoding\":\"eth\",\"id\":\"c2\",\"type\":\"Port\"},{\"adaptationFunction\":\"gfp\",\"id\":\"ad\",\"providesPort\":[\"c1\"],\"type\":\"AdaptationService\"},{\"adaptationFunction\":\"gfp\",\"id\":\"de\",\"providesPort\":[\"c2\"],\"type\":\"DeadaptationService\"},{\"id\":\"t\",\"type\":\"Link\"}],\"format\":1,\"topology\":\"d\"}";

const NODE: &str =
    "{\"elements\":[{\"id\":\"a\",\"type\":\"Port\"},{\"id\":\"b\",\"type\":\"Port\"},{\"hasInboundPort\":[\"a\"],\"hasOutboundPort\":[\"b\"],\"hasService\":[\"s\"],\"id\":\"n\",\"type\":\"Node\"},{\"id\":\"s\",\"type\":\"SwitchingService\"}],\"format\":1,\"topology\":\"d\"}";

const VLAN: &str =
    "{\"elements\":[{\"hasLabelGroup\":{\"labeltype\":\"vlan\",\"values\":\"100-200\"},\"id\":\"p\",\"isSource\":[\"l\"],\"type\":\"PortGroup\"},{\"hasLabelGroup\":{\"labeltype\":\"vlan\",\"values\":\"100-200\"},\"id\":\"q\",\"isSink\":[\"l\"],\"type\":\"PortGroup\"},{\"id\":\"l\",\"type\":\"LinkGroup\"}],\"format\":1,\"topology\":\"d\"}";

const SWAP: &str =
    "{\"elements\":[{\"hasLabelGroup\":{\"labeltype\":\"vlan\",\"values\":\"100-200\"},\"id\":\"p\",\"type\":\"PortGroup\"},{\"hasLabelGroup\":{\"labeltype\":\"vlan\",\"values\":\"100-200\"},\"id\":\"q\",\"type\":\"PortGroup\"},{\"hasInboundPort\":[\"p\"],\"hasOutboundPort\":[\"q\"],\"id\":\"s\",\"labelSwapping\":true,\"type\":\"SwitchingService\"}],\"format\":1,\"topology\":\"d\"}";

const OTHER_FUNCTION: &str =
    "{\"elements\":[{\"encoding\":\"eth\",\"id\":\"c1\",\"type\":\"Port\"},{\"encoding\":\"otn\",\"hasService\":[\"ad\"],\"id\":\"s1\",\"isSource\":[\"t\"],\"type\":\"Port\"},{\"encoding\":\"otn\",\"hasService\":[\"de\"],\"id\":\"s2\",\"isSink\":[\"t\"],\"type\":\"Port\"},{\"encoding\":\"eth\",\"id\":\"c2\",\"type\":\"Port\"},{\"adaptationFunction\":\"gfp\",\"id\":\"ad\",\"providesPort\":[\"c1\"],\"type\":\"AdaptationService\"},{\"adaptationFunction\":\"ppp\",\"id\":\"de\",\"providesPort\":[\"c2\"],\"type\":\"DeadaptationService\"},{\"id\":\"t\",\"type\":\"Link\"}],\"format\":1,\"topology\":\"d\"}";

const LABELLED_TUNNEL: &str =
    "{\"elements\":[{\"encoding\":\"eth\",\"hasLabelGroup\":{\"labeltype\":\"vlan\",\"values\":\"100-110\"},\"id\":\"c1\",\"type\":\"PortGroup\"},{\"encoding\":\"otn\",\"hasService\":[\"ad\"],\"id\":\"s1\",\"isSource\":[\"t\"],\"type\":\"Port\"},{\"encoding\":\"otn\",\"hasService\":[\"de\"],\"id\":\"s2\",\"isSink\":[\"t\"],\"type\":\"Port\"},{\"encoding\":\"eth\",\"hasLabelGroup\":{\"labeltype\":\"vlan\",\"values\":\"105-120\"},\"id\":\"c2\",\"type\":\"PortGroup\"},{\"adaptationFunction\":\"gfp\",\"id\":\"ad\",\"providesPort\":[\"c1\"],\"type\":\"AdaptationService\"},{\"adaptationFunction\":\"gfp\",\"id\":\"de\",\"providesPort\":[\"c2\"],\"type\":\"DeadaptationService\"},{\"id\":\"t\",\"type\":\"Link\"}],\"format\":1,\"topology\":\"d\"}";

const AGAIN: &str =
    "{\"elements\":[{\"id\":\"x1\",\"type\":\"Port\"},{\"id\":\"m1\",\"type\":\"Port\"},{\"id\":\"y1\",\"type\":\"Port\"},{\"hasService\":[\"f\",\"g\"],\"id\":\"x0\",\"isSource\":[\"l\"],\"type\":\"Port\"},{\"hasService\":[\"u\",\"v\"],\"id\":\"y0\",\"isSink\":[\"l\"],\"type\":\"Port\"},{\"adaptationFunction\":\"F\",\"id\":\"f\",\"providesPort\":[\"x1\"],\"type\":\"AdaptationService\"},{\"adaptationFunction\":\"G\",\"id\":\"g\",\"providesPort\":[\"m1\"],\"type\":\"AdaptationService\"},{\"adaptationFunction\":\"F\",\"id\":\"u\",\"providesPort\":[\"m1\"],\"type\":\"DeadaptationService\"},{\"adaptationFunction\":\"G\",\"id\":\"v\",\"providesPort\":[\"y1\"],\"type\":\"DeadaptationService\"},{\"id\":\"l\",\"type\":\"Link\"}],\"format\":1,\"topology\":\"d\"}";

const THREE_CHEAP: &str =
    "{\"elements\":[{\"id\":\"a\",\"isSource\":[\"l\",\"l1\"],\"type\":\"Port\"},{\"id\":\"b\",\"isSink\":[\"l1\"],\"isSource\":[\"l2\"],\"type\":\"Port\"},{\"id\":\"c\",\"isSink\":[\"l2\"],\"isSource\":[\"l3\"],\"type\":\"Port\"},{\"id\":\"z\",\"isSink\":[\"l\",\"l3\"],\"type\":\"Port\"},{\"cost\":3,\"id\":\"l\",\"type\":\"Link\"},{\"id\":\"l1\",\"type\":\"Link\"},{\"id\":\"l2\",\"type\":\"Link\"},{\"id\":\"l3\",\"type\":\"Link\"}],\"format\":1,\"topology\":\"d\"}";

const FOUR: &str =
    "{\"elements\":[{\"id\":\"c0\",\"type\":\"Port\"},{\"id\":\"e0\",\"type\":\"Port\"},{\"hasService\":[\"a1\"],\"id\":\"c1\",\"type\":\"Port\"},{\"hasService\":[\"d1\"],\"id\":\"e1\",\"type\":\"Port\"},{\"hasService\":[\"a2\"],\"id\":\"c2\",\"type\":\"Port\"},{\"hasService\":[\"d2\"],\"id\":\"e2\",\"type\":\"Port\"},{\"hasService\":[\"a3\"],\"id\":\"c3\",\"type\":\"Port\"},{\"hasService\":[\"d3\"],\"id\":\"e3\",\"type\":\"Port\"},{\"hasService\":[\"a4\"],\"id\":\"c4\",\"isSource\":[\"l\"],\"type\":\"Port\"},{\"hasService\":[\"d4\"],\"id\":\"e4\",\"isSink\":[\"l\"],\"type\":\"Port\"},{\"adaptationFunction\":\"f1\",\"id\":\"a1\",\"providesPort\":[\"c0\"],\"type\":\"AdaptationService\"},{\"adaptationFunction\":\"f1\",\"id\":\"d1\",\"providesPort\":[\"e0\"],\"type\":\"DeadaptationService\"},{\"adaptationFunction\":\"f2\",\"id\":\"a2\",\"providesPort\":[\"c1\"],\"type\":\"AdaptationService\"},{\"adaptationFunction\":\"f2\",\"id\":\"d2\",\"providesPort\":[\"e1\"],\"type\":\"DeadaptationService\"},{\"adaptationFunction\":\"f3\",\"id\":\"a3\",\"providesPort\":[\"c2\"],\"type\":\"AdaptationService\"},{\"adaptationFunction\":\"f3\",\"id\":\"d3\",\"providesPort\":[\"e2\"],\"type\":\"DeadaptationService\"},{\"adaptationFunction\":\"f4\",\"id\":\"a4\",\"providesPort\":[\"c3\"],\"type\":\"AdaptationService\"},{\"adaptationFunction\":\"f4\",\"id\":\"d4\",\"providesPort\":[\"e3\"],\"type\":\"DeadaptationService\"},{\"id\":\"l\",\"type\":\"Link\"}],\"format\":1,\"topology\":\"d\"}";

const ALPHA: &str =
    "{\"elements\":[{\"hasLabelGroup\":{\"labeltype\":\"vlan\",\"values\":\"2-4094\"},\"id\":\"a-in\",\"type\":\"PortGroup\"},{\"hasLabelGroup\":{\"labeltype\":\"vlan\",\"values\":\"2-4094\"},\"id\":\"a-c\",\"type\":\"PortGroup\"},{\"encoding\":\"otn\",\"hasService\":[\"a-ad\"],\"id\":\"a-s\",\"isSource\":[\"a-t\"],\"type\":\"Port\"},{\"encoding\":\"otn\",\"id\":\"a-x\",\"isAlias\":[\"b-i\"],\"isSink\":[\"a-t\"],\"type\":\"Port\"},{\"hasInboundPort\":[\"a-in\"],\"hasOutboundPort\":[\"a-c\"],\"hasService\":[\"a-sw\"],\"id\":\"a-node\",\"type\":\"Node\"},{\"id\":\"a-sw\",\"type\":\"SwitchingService\"},{\"adaptationFunction\":\"gfp\",\"id\":\"a-ad\",\"providesPort\":[\"a-c\"],\"type\":\"AdaptationService\"},{\"id\":\"a-t\",\"type\":\"Link\"}],\"encoding\":\"eth\",\"format\":1,\"topology\":\"alpha\"}";

const BETA: &str =
    "{\"elements\":[{\"id\":\"b-i\",\"type\":\"Port\"},{\"id\":\"b-o\",\"isSource\":[\"b-t\"],\"type\":\"Port\"},{\"hasService\":[\"b-de\"],\"id\":\"b-p\",\"isSink\":[\"b-t\"],\"type\":\"Port\"},{\"encoding\":\"eth\",\"hasLabelGroup\":{\"labeltype\":\"vlan\",\"values\":\"2-4094\"},\"id\":\"b-c\",\"type\":\"PortGroup\"},{\"encoding\":\"eth\",\"hasLabelGroup\":{\"labeltype\":\"vlan\",\"values\":\"2-4094\"},\"id\":\"b-e\",\"isSource\":[\"b-l\"],\"type\":\"PortGroup\"},{\"encoding\":\"eth\",\"hasLabelGroup\":{\"labeltype\":\"vlan\",\"values\":\"2-4094\"},\"id\":\"b-f\",\"isSink\":[\"b-l\"],\"type\":\"PortGroup\"},{\"hasInboundPort\":[\"b-i\"],\"hasOutboundPort\":[\"b-o\"],\"id\":\"b-sw\",\"type\":\"SwitchingService\"},{\"hasInboundPort\":[\"b-c\"],\"hasOutboundPort\":[\"b-e\"],\"id\":\"b-es\",\"labelSwapping\":true,\"type\":\"SwitchingService\"},{\"adaptationFunction\":\"gfp\",\"id\":\"b-de\",\"providesPort\":[\"b-c\"],\"type\":\"DeadaptationService\"},{\"id\":\"b-t\",\"type\":\"Link\"},{\"id\":\"b-l\",\"type\":\"LinkGroup\"}],\"encoding\":\"otn\",\"format\":1,\"topology\":\"beta\"}";

const GAMMA: &str =
    "{\"elements\":[{\"hasLabelGroup\":{\"labeltype\":\"vlan\",\"values\":\"2-4094\"},\"id\":\"c-in\",\"isAlias\":[\"b-f\"],\"type\":\"PortGroup\"},{\"hasLabelGroup\":{\"labeltype\":\"vlan\",\"values\":\"2-4094\"},\"id\":\"c-m\",\"isSource\":[\"c-l1\"],\"type\":\"PortGroup\"},{\"hasLabelGroup\":{\"labeltype\":\"vlan\",\"values\":\"2-4094\"},\"id\":\"c-n\",\"isSink\":[\"c-l1\"],\"type\":\"PortGroup\"},{\"hasLabelGroup\":{\"labeltype\":\"vlan\",\"values\":\"2-4094\"},\"id\":\"c-out\",\"isSource\":[\"c-l2\"],\"type\":\"PortGroup\"},{\"hasLabelGroup\":{\"labeltype\":\"vlan\",\"values\":\"2-4094\"},\"id\":\"c-host\",\"isSink\":[\"c-l2\"],\"type\":\"PortGroup\"},{\"hasInboundPort\":[\"c-in\"],\"hasOutboundPort\":[\"c-m\"],\"id\":\"c-sw1\",\"type\":\"SwitchingService\"},{\"hasInboundPort\":[\"c-n\"],\"hasOutboundPort\":[\"c-out\"],\"id\":\"c-sw2\",\"type\":\"SwitchingService\"},{\"id\":\"c-l1\",\"type\":\"LinkGroup\"},{\"id\":\"c-l2\",\"type\":\"LinkGroup\"}],\"encoding\":\"eth\",\"format\":1,\"topology\":\"gamma\"}";

// Names that stand twice, of which the last counts.
const NAMED_TWICE: &str =
    "{\"elements\":[],\"elements\":[{\"id\":\"a\",\"isSource\":[\"m\"],\"isSource\":[\"l\"],\"type\":\"Port\"},{\"id\":\"b\",\"isSink\":[\"l\"],\"type\":\"Port\"},{\"cost\":7,\"cost\":1,\"id\":\"l\",\"type\":\"Link\"}],\"format\":2,\"format\":1,\"topology\":\"x\",\"topology\":\"d\"}";

const EMPTY: &str = "{\"elements\":[],\"format\":1,\"topology\":\"d\"}";

const FURTHER: &str =
    "{\"elements\":[{\"id\":\"a\",\"isSource\":[\"l\"],\"type\":\"Port\"},{\"id\":\"b\",\"isSink\":[\"l\"],\"type\":\"Port\"},{\"id\":\"l\",\"type\":\"Link\"},{\"type\":\"BidirectionalPort\"}],\"format\":1,\"topology\":\"d\"}";

const WIDE: &str =
    "{\"elements\":[{\"hasLabelGroup\":{\"labeltype\":\"vlan\",\"values\":\"0-4294967295\"},\"id\":\"p\",\"isSource\":[\"l\"],\"type\":\"PortGroup\"},{\"hasLabelGroup\":{\"labeltype\":\"vlan\",\"values\":\"0-4294967295\"},\"id\":\"q\",\"isSink\":[\"l\"],\"type\":\"PortGroup\"},{\"id\":\"l\",\"type\":\"LinkGroup\"}],\"format\":1,\"topology\":\"d\"}";

/// Adds these topologies, by their names.
pub fn put_sound(files: &mut MemFiles) -> Result<(), NoMemory> {
    let all = [
        ("two.json", TWO),
        ("three.json", THREE),
        ("big.json", BIG),
        ("zero.json", ZERO),
        ("tunnel.json", TUNNEL),
        ("other.json", OTHER_FUNCTION),
        ("labelled.json", LABELLED_TUNNEL),
        ("again.json", AGAIN),
        ("vlan.json", VLAN),
        ("swap.json", SWAP),
        ("node.json", NODE),
        ("three-cheap.json", THREE_CHEAP),
        ("four.json", FOUR),
        ("alpha.json", ALPHA),
        ("beta.json", BETA),
        ("gamma.json", GAMMA),
        ("named-twice.json", NAMED_TWICE),
        ("empty.json", EMPTY),
        ("further.json", FURTHER),
        ("wide.json", WIDE),
    ];
    for (name, text) in all {
        files.put(name, text.as_bytes())?;
    }
    Ok(())
}

/// One level of the nested tunnels: what runs through it runs twice through the level below, once under each of two functions.
fn push_level(text: &mut String, this: &str, next: &str) -> Result<(), AllocError> {
    let pieces = [
        ",{\"type\":\"Port\",\"id\":\"x",
        this,
        "\",\"hasService\":[\"a",
        next,
        "\",\"b",
        next,
        "\"]},{\"type\":\"Port\",\"id\":\"m",
        this,
        "\"},{\"type\":\"Port\",\"id\":\"y",
        this,
        "\",\"hasService\":[\"u",
        next,
        "\",\"v",
        next,
        "\"]},{\"type\":\"AdaptationService\",\"id\":\"a",
        this,
        "\",\"adaptationFunction\":\"F",
        this,
        "\",\"providesPort\":[\"x",
        this,
        "\"]},{\"type\":\"AdaptationService\",\"id\":\"b",
        this,
        "\",\"adaptationFunction\":\"G",
        this,
        "\",\"providesPort\":[\"m",
        this,
        "\"]},{\"type\":\"DeadaptationService\",\"id\":\"u",
        this,
        "\",\"adaptationFunction\":\"F",
        this,
        "\",\"providesPort\":[\"m",
        this,
        "\"]},{\"type\":\"DeadaptationService\",\"id\":\"v",
        this,
        "\",\"adaptationFunction\":\"G",
        this,
        "\",\"providesPort\":[\"y",
        this,
        "\"]}",
    ];
    for piece in pieces {
        text.push_str(piece)?;
    }
    Ok(())
}

/// Nested tunnels of 14 levels, `xN` to `yN`: the one walk has 5 * 2^14 - 4 hops, each of cost 1.
pub fn nested(alloc: Global) -> Result<String, AllocError> {
    let mut text = String::from_str(
        alloc,
        "{\"format\":1,\"topology\":\"d\",\"elements\":[{\"type\":\"Link\",\"id\":\"l\"},{\"type\":\"Port\",\"id\":\"x\",\"isSource\":[\"l\"],\"hasService\":[\"aA\",\"bA\"]},{\"type\":\"Port\",\"id\":\"y\",\"isSink\":[\"l\"],\"hasService\":[\"uA\",\"vA\"]}",
    )?;
    let levels = [
        ("A", "B"),
        ("B", "C"),
        ("C", "D"),
        ("D", "E"),
        ("E", "F"),
        ("F", "G"),
        ("G", "H"),
        ("H", "I"),
        ("I", "J"),
        ("J", "K"),
        ("K", "L"),
        ("L", "M"),
        ("M", "N"),
        ("N", "O"),
    ];
    for (this, next) in levels {
        push_level(&mut text, this, next)?;
    }
    text.push_str("]}")?;
    Ok(text)
}
