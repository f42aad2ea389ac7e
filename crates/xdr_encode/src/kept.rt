ghost use Rattle.std.specs.Prelude.{◌≡◌, length};

use csv_source::Table;
use dap_types::List;

/// What is sent of a table: the rows where the mask is true, each with the columns where `columns` is.
#[derive(Drop)]
pub struct Rows {
    pub table: Table,
    pub mask: List<bool>,
    pub columns: List<bool>,
    ghost mask_len: { length mask ≡ length table.rows },
    ghost columns_len: { length columns ≡ length table.columns },
}
