use dap_types::Bytes;

/// The name of a field.
#[derive(Clone, Copy, Debug, PartialEq, Eq)]
pub enum Label {
    Code,
    Message,
    Other,
}

/// What the fields of an object said until now.
#[derive(Debug, Drop)]
pub struct Found {
    pub code: Option<i32>,
    pub message: Option<Bytes>,
}
