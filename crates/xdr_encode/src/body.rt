ghost use Rattle.std.specs.Prelude.{◌≡◌, vec_len};
ghost use Rattle.dap_types.specs.Limits.{most_piece};

use crate::kept::Rows;
use crate::leaf::Leaf;
use dap_types::{Bytes, List};

/// The body of the data response for what a constraint leaves of a netCDF file or of a table, and the
/// rooms in which its values are read and turned into XDR. Contracts see what it is for a file with
/// some bytes by `text_in`, which file it fits by `FitsFile`, and what it asks of it by `cost_in` and `MayAsk`.
#[derive(Drop)]
pub struct Body {
    /// The DDS and the line `Data:`.
    pub(crate) head: Bytes,
    /// The bytes of the DDS.
    pub(crate) dds_len: usize,
    /// What is sent of a table.
    pub(crate) rows: Option<Rows>,
    /// What is sent of a netCDF file.
    pub(crate) leaves: List<Leaf>,
    pub(crate) raw: Vec<u8>,
    pub(crate) sent: Vec<u8>,
    ghost raw_room: { vec_len raw ≡ most_piece },
    ghost sent_room: { vec_len sent ≡ most_piece },
}
