//! Why a call is refused.

/// Why a call isn't done. A refused call changes nothing.
#[derive(Debug, Drop, Clone, Copy, PartialEq, Eq)]
pub enum Refusal {
    /// A refusal of DOM Level 3 Core, with its code.
    Dom(u16),
    DocumentExists,
    TooDeep,
    TextLimit,
    LabelLimit,
}
