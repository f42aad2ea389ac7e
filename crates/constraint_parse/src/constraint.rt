use dap_types::{Bytes, Id, List};

/// A number as a text has it.
#[derive(Clone, Copy, Debug, PartialEq, Eq)]
pub enum Number {
    Small(i128),
    /// Outside -2^127 to 2^127-1.
    Big,
}

/// A hyperslab as it is written (DAP 2.0, constraint expressions): `[first]`, `[first:last]` or
/// `[first:middle:last]`, where the middle one is the stride.
#[derive(Clone, Copy, Debug, PartialEq, Eq)]
pub struct RawSlab {
    pub first: Number,
    pub middle: Option<Number>,
    pub last: Option<Number>,
}

/// One name of a path, with the slabs behind it.
#[derive(Debug, Drop)]
pub struct Step {
    pub name: Id,
    pub slabs: List<RawSlab>,
}

/// One item of the projection (DAP 2.0, constraint expressions).
#[derive(Debug, Drop)]
pub enum Item {
    /// The names from the top of the dataset down, at least one.
    Path(List<Step>),
    /// The call of a server function, of which nothing is kept.
    Call,
}

/// The operator of a comparison (DAP 2.0, constraint expressions).
#[derive(Clone, Copy, Debug, PartialEq, Eq)]
pub enum Op {
    /// `=`
    Equal,
    /// `!=`
    NotEqual,
    /// `<`
    Less,
    /// `<=`
    LessEqual,
    /// `>`
    Greater,
    /// `>=`
    GreaterEqual,
}

/// A constant that a column is compared with.
#[derive(Debug, Drop)]
pub enum Constant {
    /// Digits with or without a sign.
    Whole(Number),
    /// The text between two quotes.
    Text(Bytes),
    /// Any other word.
    Other,
}

/// One clause of the selection (DAP 2.0, constraint expressions).
#[derive(Debug, Drop)]
pub enum Clause {
    /// A column, an operator, and at least one constant.
    Compare {
        path: List<Id>,
        op: Op,
        values: List<Constant>,
    },
    /// A comparison with a regular expression, of which nothing is kept.
    Match,
    /// The call of a server function, of which nothing is kept.
    Call,
}

/// A constraint expression: the projection and the selection, in order (DAP 2.0).
#[derive(Debug, Drop)]
pub struct Constraint {
    pub items: List<Item>,
    pub clauses: List<Clause>,
}
