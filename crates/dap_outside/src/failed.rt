/// A call on an object of the outside failed. It comes only where that object's count of faults rose.
#[derive(Clone, Copy, Debug, PartialEq, Eq)]
pub struct Failed;
