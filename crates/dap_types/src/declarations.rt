ghost use Rattle.std.specs.Prelude.{◌≡◌};
ghost use Rattle.dap_types.specs.Model.{name_of};
ghost use Rattle.dap_types.specs.View.{member_view};

use crate::{Id, List};

/// The type of a value (DAP 2.0, base types).
#[derive(Clone, Copy, Debug, PartialEq, Eq)]
pub enum BaseType {
    /// 8 bits without a sign.
    Byte,
    /// 16 bits in two's complement.
    Int16,
    /// 16 bits without a sign.
    UInt16,
    /// 32 bits in two's complement.
    Int32,
    /// 32 bits without a sign.
    UInt32,
    /// IEEE 754 single.
    Float32,
    /// IEEE 754 double.
    Float64,
    /// DAP's String: bytes of any kind.
    Text,
    /// A String that names a resource.
    Url,
}

/// A dimension of an array (DAP 2.0, arrays), with a name or without one.
#[derive(Debug, Drop)]
pub struct Dim {
    pub name: Option<Id>,
    /// The number of indexes.
    pub size: u32,
}

/// An array of a base type, the slowest dimension first (DAP 2.0, arrays).
#[derive(Debug, Drop)]
pub struct ArrayDecl {
    pub name: Id,
    pub base: BaseType,
    pub dims: List<Dim>,
}

/// A scalar, or a column of a Sequence.
#[derive(Debug, Drop)]
pub struct Column {
    pub name: Id,
    pub base: BaseType,
}

/// The declaration of a variable (DAP 2.0, DDS).
#[derive(Debug, Drop)]
pub enum Decl {
    Base(Column),
    Array(ArrayDecl),
    /// A name and the members.
    Structure(Id, List<Decl>),
    /// A name, the array, and a map for each of its dimensions.
    Grid(Id, ArrayDecl, List<ArrayDecl>),
    /// A name and the columns of each row.
    Sequence(Id, List<Column>),
}

impl Decl {
    /// The name of the variable.
    #[tactic(auto, using(crate::proofs::Views::views))]
    pub fn name(&self) -> &Id
        ensures { result.now ≡ name_of (member_view self.now) }
    {
        match self {
            Decl::Base(column) => &column.name,
            Decl::Array(array) => &array.name,
            Decl::Structure(name, _) | Decl::Grid(name, _, _) | Decl::Sequence(name, _) => name,
        }
    }
}

/// A dataset: its name and its variables in order (DAP 2.0, DDS).
#[derive(Debug, Drop)]
pub struct Dataset {
    pub name: Id,
    pub members: List<Decl>,
}
