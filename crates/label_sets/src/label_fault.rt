use thiserror::Error;

/// Why a text is refused as a label group.
#[derive(Clone, Copy, Debug, PartialEq, Eq, Error)]
pub enum LabelFault {
    /// It is no group text; its longest prefix that is one has this length.
    #[error("no group of labels past byte {at}")]
    Text { at: u64 },
    #[error("out of memory")]
    NoMemory,
}
