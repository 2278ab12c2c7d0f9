//! Files with faults for the rows.
use io_edges::MemFiles;
use ml_base::NoMemory;

/// One link from `a` to `b`.
pub const ONE: &str =
    "{\"elements\":[{\"id\":\"a\",\"isSource\":[\"l\"],\"type\":\"Port\"},{\"id\":\"b\",\"isSink\":[\"l\"],\"type\":\"Port\"},{\"id\":\"l\",\"type\":\"Link\"}],\"format\":1,\"topology\":\"d\"}";

const NO_BYTES: &str = "";

const FORMAT_2: &str = "{\"format\":2,\"topology\":\"d\",\"elements\":[]}";

const NO_ID: &str = "{\"format\":1,\"topology\":\"d\",\"elements\":[{\"type\":\"Port\"}]}";

const LABEL_TEXT: &str =
    "{\"elements\":[{\"hasLabelGroup\":{\"labeltype\":\"v\",\"values\":\"5-3\"},\"id\":\"p\",\"type\":\"PortGroup\"}],\"format\":1,\"topology\":\"d\"}";

const A_AGAIN: &str =
    "{\"elements\":[{\"id\":\"a\",\"type\":\"Port\"}],\"format\":1,\"topology\":\"e\"}";

const WRONG_KIND: &str =
    "{\"elements\":[{\"id\":\"a\",\"isSource\":[\"b\"],\"type\":\"Port\"},{\"id\":\"b\",\"type\":\"Port\"}],\"format\":1,\"topology\":\"d\"}";

const ALIAS_ETH: &str =
    "{\"elements\":[{\"encoding\":\"eth\",\"id\":\"a\",\"isAlias\":[\"b\"],\"type\":\"Port\"}],\"format\":1,\"topology\":\"d1\"}";

const ALIAS_OTN: &str =
    "{\"elements\":[{\"encoding\":\"otn\",\"id\":\"b\",\"type\":\"Port\"}],\"format\":1,\"topology\":\"d2\"}";

const ALIAS_LABEL: &str =
    "{\"elements\":[{\"hasLabel\":{\"labeltype\":\"vlan\",\"value\":1},\"id\":\"a\",\"isAlias\":[\"b\"],\"type\":\"Port\"},{\"id\":\"b\",\"type\":\"Port\"}],\"format\":1,\"topology\":\"d\"}";

const LINK_LAYER: &str =
    "{\"elements\":[{\"encoding\":\"eth\",\"id\":\"a\",\"isSource\":[\"l\"],\"type\":\"Port\"},{\"encoding\":\"otn\",\"id\":\"b\",\"isSink\":[\"l\"],\"type\":\"Port\"},{\"id\":\"l\",\"type\":\"Link\"}],\"format\":1,\"topology\":\"d\"}";

const LINK_LABEL: &str =
    "{\"elements\":[{\"hasLabel\":{\"labeltype\":\"vlan\",\"value\":1},\"id\":\"a\",\"isSource\":[\"l\"],\"type\":\"Port\"},{\"id\":\"b\",\"isSink\":[\"l\"],\"type\":\"Port\"},{\"id\":\"l\",\"type\":\"Link\"}],\"format\":1,\"topology\":\"d\"}";

const SWITCH_LAYER: &str =
    "{\"elements\":[{\"encoding\":\"eth\",\"id\":\"a\",\"type\":\"Port\"},{\"encoding\":\"otn\",\"id\":\"b\",\"type\":\"Port\"},{\"hasInboundPort\":[\"a\"],\"hasOutboundPort\":[\"b\"],\"id\":\"s\",\"type\":\"SwitchingService\"}],\"format\":1,\"topology\":\"d\"}";

const SWITCH_LABEL: &str =
    "{\"elements\":[{\"hasLabel\":{\"labeltype\":\"vlan\",\"value\":1},\"id\":\"a\",\"type\":\"Port\"},{\"id\":\"b\",\"type\":\"Port\"},{\"hasInboundPort\":[\"a\"],\"hasOutboundPort\":[\"b\"],\"id\":\"s\",\"type\":\"SwitchingService\"}],\"format\":1,\"topology\":\"d\"}";

/// Adds these files, by their names.
pub fn put_faulty(files: &mut MemFiles) -> Result<(), NoMemory> {
    let all = [
        ("one.json", ONE),
        ("no-bytes.json", NO_BYTES),
        ("format-2.json", FORMAT_2),
        ("no-id.json", NO_ID),
        ("label-text.json", LABEL_TEXT),
        ("a-again.json", A_AGAIN),
        ("wrong-kind.json", WRONG_KIND),
        ("alias-eth.json", ALIAS_ETH),
        ("alias-otn.json", ALIAS_OTN),
        ("alias-label.json", ALIAS_LABEL),
        ("link-layer.json", LINK_LAYER),
        ("link-label.json", LINK_LABEL),
        ("switch-layer.json", SWITCH_LAYER),
        ("switch-label.json", SWITCH_LABEL),
    ];
    for (name, text) in all {
        files.put(name, text.as_bytes())?;
    }
    Ok(())
}
