//! A request for what the other server has.

use dap_http::Kind;
use dap_types::Bytes;

/// Whether the head of the reply alone is wanted, the minor version of the request, the kind of what it asks
/// for, and the bytes of the request that goes to the other server.
#[derive(Drop)]
pub struct Wanted {
    pub head_alone: bool,
    pub minor: u8,
    pub kind: Kind,
    pub key: Bytes,
}
