ghost use Rattle.std.specs.Prelude.{◌≡◌, vec_len};
ghost use Rattle.dap_types.specs.Limits.{most_piece};

use crate::piece::Piece;
use dap_types::{Bytes, List};

/// The body of the data response for what a constraint leaves of joined files, and the rooms in which values
/// are read and turned into XDR. Contracts see what it is for files with some bytes by `text_in`, which files it fits
/// by `FitsFiles`, and what it asks of them by `cost_in` and `MayAsk`.
#[derive(Drop)]
pub struct JoinBody {
    /// The DDS and the line `Data:`.
    pub(crate) head: Bytes,
    /// The bytes of the DDS.
    pub(crate) dds_len: usize,
    /// What stands behind the head.
    pub(crate) pieces: List<Piece>,
    pub(crate) raw: Vec<u8>,
    pub(crate) sent: Vec<u8>,
    ghost raw_room: { vec_len raw ≡ most_piece },
    ghost sent_room: { vec_len sent ≡ most_piece },
}
