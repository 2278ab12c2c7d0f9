use thiserror::Error;

/// Why a unit cannot take a hop. The first condition that fails counts, in this order.
#[derive(Clone, Copy, Debug, PartialEq, Eq, Error)]
pub enum StepFault {
    /// The element is not there, is of another kind or domain, or does not relate the two ports, or the unit is not in the from
    /// port's class.
    #[error("no hop of the unit")]
    NoHop,
    /// The unit has another label, a place is not open, or the label rule of the link or the switching service fails.
    #[error("a label does not fit")]
    Label,
    /// What a deadaptation takes off is not on top of the stack.
    #[error("the frame is not on top")]
    Frame,
    /// The stack has no room for the frame of an adaptation.
    #[error("no room on the stack")]
    Full,
    #[error("out of memory")]
    NoMemory,
}
