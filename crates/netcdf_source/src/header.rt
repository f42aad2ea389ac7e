use crate::attributes::AttributeList;
use crate::{ExternalType, Shape};
use dap_types::{Id, List};

/// A dimension (netCDF classic format, `dim`).
#[derive(Debug, Drop)]
pub struct Dimension {
    pub name: Id,
    /// The number of indexes. 0 is that of the record dimension, which has as many as there are
    /// records.
    pub length: u64,
}

/// A variable (netCDF classic format, `var`).
#[derive(Debug, Drop)]
pub struct Variable {
    pub name: Id,
    /// The numbers of its dimensions, from 0, the slowest first.
    pub dimensions: Shape,
    pub attributes: AttributeList,
    pub external_type: ExternalType,
    /// The place of its first byte in the file.
    pub begin: u64,
}

/// What a header says (netCDF classic format, `header`).
#[derive(Debug, Drop)]
pub struct Contents {
    /// The number of records.
    pub records: u64,
    pub dimensions: List<Dimension>,
    pub attributes: AttributeList,
    pub variables: List<Variable>,
}
