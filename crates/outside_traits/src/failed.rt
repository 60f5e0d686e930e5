/// A call to the outside failed; the object that it was called on has counted it.
#[derive(Clone, Copy, Debug, PartialEq, Eq)]
pub struct Failed;
