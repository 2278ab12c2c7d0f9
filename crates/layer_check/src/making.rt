ghost use Rattle.std.specs.Prelude.{◌≡◌};
ghost use Rattle.layer_check.specs.Found.{IsNamed, made_by};

use circuit_spec::LayerFault;
use ml_base::Id;

/// The faults of the layers, without the ids that they name.
#[derive(Clone, Copy)]
pub enum FaultKind {
    AliasEncoding,
    AliasLabelType,
    LinkLayer,
    LinkLabelType,
    SwitchLayer,
    SwitchLabelType,
}

/// The fault that names the two ids, or want of memory.
pub fn fault_of(kind: FaultKind, first: &Id, second: &Id) -> LayerFault
    ensures { IsNamed (made_by kind) first.now second.now result }
{
    match (first.share(), second.share()) {
        (Ok(first), Ok(second)) => named(kind, first, second),
        _ => LayerFault::NoMemory,
    }
}

fn named(kind: FaultKind, first: Id, second: Id) -> LayerFault
    ensures { result ≡ made_by kind first second }
{
    match kind {
        FaultKind::AliasEncoding => LayerFault::AliasEncoding { first, second },
        FaultKind::AliasLabelType => LayerFault::AliasLabelType { first, second },
        FaultKind::LinkLayer => LayerFault::LinkLayer {
            link: first,
            port: second,
        },
        FaultKind::LinkLabelType => LayerFault::LinkLabelType {
            link: first,
            port: second,
        },
        FaultKind::SwitchLayer => LayerFault::SwitchLayer {
            service: first,
            port: second,
        },
        FaultKind::SwitchLabelType => LayerFault::SwitchLabelType {
            service: first,
            port: second,
        },
    }
}
