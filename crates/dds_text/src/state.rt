//! How much of a DDS was read (DAP 2.0, DDS), but for the levels that are open.

use crate::level::{Columns, Maps};
use dap_types::{ArrayDecl, BaseType, Column, Dataset, Decl, Dim, Id, List};

/// What a declaration of a base type is to what stands around it, behind what came before it there.
#[derive(Drop)]
pub enum Role {
    /// A member of a level.
    Variable,
    Column(Columns),
    /// The array of a Grid.
    GridArray,
    /// A map of a Grid.
    GridMap(Maps),
}

/// How much of a declaration was read. A scalar is an array without dimensions here.
#[derive(Drop)]
pub enum Stage {
    /// Behind its type.
    Typed(BaseType),
    /// Behind its name and some dimensions.
    Named(ArrayDecl),
    /// Behind `[`.
    Bracketed(ArrayDecl),
    /// Behind a word there: a size, or the name of a dimension.
    Worded(ArrayDecl, Id),
    /// Behind the name of a dimension and `=`.
    Equated(ArrayDecl, Id),
    /// Behind the size of a dimension that has a name.
    Measured(ArrayDecl, Dim),
}

/// What has parts.
#[derive(Clone, Copy, Debug, PartialEq, Eq)]
pub enum Kind {
    Structure,
    Sequence,
    Grid,
}

/// How much of a Grid was read, up to its maps.
#[derive(Drop)]
pub enum GridStage {
    /// Behind `{`.
    Entered,
    /// Behind `Array`.
    Arrayed,
    /// Behind its `:`.
    Ready,
    /// Behind the array.
    Filled(ArrayDecl),
    /// Behind `Maps`.
    Mapping(ArrayDecl),
}

/// What has parts, and no name yet.
#[derive(Drop)]
pub enum Whole {
    Structure(List<Decl>),
    Sequence(List<Column>),
    Grid(Maps),
}

/// How much was read.
#[derive(Drop)]
pub enum State {
    /// Nothing.
    Begun,
    /// Behind `Dataset`.
    Headed,
    /// In a level, behind its `{` or a member.
    Inside,
    /// In a declaration of a base type.
    Declaring(Role, Stage),
    /// Behind `Structure`, `Sequence` or `Grid`.
    Opening(Kind),
    /// In a Sequence, behind its `{` or a column.
    InSequence(Columns),
    /// In a Grid, before its maps.
    InGrid(GridStage),
    /// In a Grid, behind `Maps`, `:` or a map.
    InMaps(Maps),
    /// Behind the `}` of a Structure, Sequence or Grid.
    Closed(Whole),
    /// Behind its name.
    Called(Decl),
    /// Behind the `}` of the dataset.
    DatasetClosed(List<Decl>),
    /// Behind its name.
    DatasetCalled(Dataset),
}
