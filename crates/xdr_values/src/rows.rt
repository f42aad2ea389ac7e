//! The rows of a Sequence in the bytes of a response (DAP 2.0, Sequence).

ghost use Rattle.std.specs.Prelude.{◌≡◌, ◌<◌, ◌≤◌, ◌==◌, ◌∷◌, ℕ, List, length, true};
ghost use Rattle.dap_types.specs.Model.{Tree};
ghost use Rattle.xdr_values.specs.Walked.{StandCells, StandRows};

use crate::scalars::{split, value};
use dap_types::Column;

/// Whether the mark of a row comes, and not that of the end.
pub fn is_row(bytes: &[u8]) -> bool
    ensures row { (b : ℕ) (more : List ℕ) → bytes.now ≡ b ∷ more → result ≡ (b == 0x5a) }
    ensures some { result ≡ true → 0 < length bytes.now }
{
    !bytes.is_empty() && bytes[0] == 0x5a
}

/// What stands behind the cells of these columns.
pub fn behind_cells<'a>(columns: &[Column], bytes: &'a [u8]) -> &'a [u8]
    ensures rest { (cells : List Tree) (rest : List ℕ) → StandCells columns.now cells bytes.now rest → result.now ≡ rest }
    ensures within { length result.now ≤ length bytes.now }
{
    let mut rest = bytes;
    for column in columns {
        let (_, behind) = value(column.base, rest);
        rest = behind;
    }
    rest
}

/// What stands behind the rows of a Sequence and the mark of their end.
pub fn behind_rows<'a>(columns: &[Column], bytes: &'a [u8]) -> &'a [u8]
    ensures { (rows : List Tree) (rest : List ℕ) → StandRows columns.now rows bytes.now rest → result.now ≡ rest }
{
    let mut rest = bytes;
    while is_row(rest) {
        rest = behind_cells(columns, split(rest, 4).1);
    }
    split(rest, 4).1
}
