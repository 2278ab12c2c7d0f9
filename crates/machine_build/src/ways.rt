use adapt_machine::MachineKind;
use ml_base::{FrameNo, PortNo, StateNo, Tag};

/// A port, and a state of its class.
#[derive(Clone, Copy, Debug, PartialEq, Eq)]
pub struct End {
    pub port: PortNo,
    pub state: StateNo,
}

/// What the steps of an element do to the stack, and what they cost. The frame is 0 for `Flat`.
#[derive(Clone, Copy, Debug, PartialEq, Eq)]
pub struct Effect {
    pub kind: MachineKind,
    pub frame: FrameNo,
    pub cost: u64,
}

/// A way through an element, with its effect. A `Pop` goes from the far end to the near one, all else from the near end to the far one.
#[derive(Clone, Copy, Debug, PartialEq, Eq)]
pub struct Move {
    pub element: u64,
    pub near: End,
    pub far: End,
    pub effect: Effect,
}

/// The near end of ways through an element, with the label there. Their far ends have this label too, unless any may be there.
#[derive(Clone, Copy, Debug, PartialEq, Eq)]
pub struct Crossing {
    pub element: u64,
    pub near: End,
    pub label: Tag,
    pub any: bool,
    pub effect: Effect,
}
