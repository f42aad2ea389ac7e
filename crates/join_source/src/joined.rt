ghost use Rattle.std.specs.Prelude.{◌≡◌, ◌≤◌, length};
ghost use Rattle.join_source.specs.Members.{CanJoin, all_records, contents_of};

use dap_types::{Bytes, List};
use netcdf_source::Header;

/// The headers of netCDF files that are joined along the record dimension, in order, and the name of their list.
#[derive(Drop)]
pub struct Joined {
    pub(crate) headers: List<Header>,
    pub(crate) file_name: Bytes,
    /// The records of all files.
    pub(crate) records: u64,
    ghost some: { 1 ≤ length headers },
    ghost many: { length headers ≤ 64 },
    ghost can_join: { CanJoin (contents_of headers) },
    ghost sum: { records ≡ all_records (contents_of headers) },
}
