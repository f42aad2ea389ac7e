use dap_types::Bytes;

/// What a run gives: the number of its status, and what it puts.
#[derive(Drop)]
pub struct Said {
    pub status: u8,
    pub out: Bytes,
    pub err: Bytes,
}
