//! What became of a reply, and what comes next on its connection.

use crate::served::Served;

/// What became of the reply to a request.
#[derive(Clone, Copy, Debug, PartialEq, Eq)]
pub enum Answered {
    /// It was put whole, with this status. The connection ends behind the `last`.
    Whole { status: u16, last: bool },
    /// The file could not be read further, and a front of the reply was put.
    Broken,
    /// The sink failed, and a front of the reply was put.
    WriteFault,
}

/// What comes behind a request, or in place of it.
#[derive(Clone, Copy, Debug, PartialEq, Eq)]
pub enum Next {
    /// It was answered with this status, and another may follow.
    GoesOn { status: u16 },
    /// The connection ended.
    Ends(Served),
}
