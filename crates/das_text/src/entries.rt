use dap_types::{BaseType, Bytes, Id, List};

/// One value of an attribute, unread (DAP 2.0, DAS).
#[derive(Debug, Drop)]
pub enum Word {
    /// A word that stands as it is.
    Plain(Bytes),
    /// The text between quotes, without its escapes.
    Quoted(Bytes),
}

/// An attribute: its type, its name and its values in order (DAP 2.0, DAS).
#[derive(Debug, Drop)]
pub struct Attribute {
    pub base: BaseType,
    pub name: Id,
    pub values: List<Word>,
}

/// What stands in a container of attributes (DAP 2.0, DAS).
#[derive(Debug, Drop)]
pub enum Entry {
    Attr(Attribute),
    /// A name and the entries.
    Container(Id, List<Entry>),
}

/// The attributes of a dataset: the containers in order, one a variable (DAP 2.0, DAS).
#[derive(Debug, Drop)]
pub struct Attributes {
    pub containers: List<Entry>,
}
