//! Variables in the bytes of a response.

ghost use Rattle.std.specs.Prelude.{◌≡◌, ℕ, List};
ghost use Rattle.dap_types.specs.Model.{Tree};
ghost use Rattle.dap_types.specs.View.{member_view, members_view};
ghost use Rattle.xdr_values.specs.Walked.{StandAll, StandEach, Stands};

use crate::arrays::behind_array;
use crate::rows::behind_rows;
use crate::scalars::value;
use dap_types::{ArrayDecl, Decl};

/// What stands behind arrays, one after the other.
fn behind_arrays<'a>(arrays: &[ArrayDecl], bytes: &'a [u8]) -> &'a [u8]
    ensures { (ts : List Tree) (rest : List ℕ) → StandEach arrays.now ts bytes.now rest → result.now ≡ rest }
{
    let mut rest = bytes;
    for array in arrays {
        rest = behind_array(array, rest);
    }
    rest
}

/// What stands behind a variable.
#[cycle(variables)]
pub fn behind_member<'a>(decl: &Decl, bytes: &'a [u8]) -> &'a [u8]
    ensures { (t : Tree) (rest : List ℕ) → Stands (member_view decl.now) t bytes.now rest → result.now ≡ rest }
{
    match decl {
        Decl::Base(column) => value(column.base, bytes).1,
        Decl::Array(array) => behind_array(array, bytes),
        Decl::Structure(_, parts) => behind_members(parts.items(), bytes),
        Decl::Grid(_, array, maps) => behind_arrays(maps.items(), behind_array(array, bytes)),
        Decl::Sequence(_, columns) => behind_rows(columns.items(), bytes),
    }
}

/// What stands behind variables, one after the other.
#[cycle(variables)]
pub fn behind_members<'a>(decls: &[Decl], bytes: &'a [u8]) -> &'a [u8]
    ensures { (ts : List Tree) (rest : List ℕ) → StandAll (members_view decls.now) ts bytes.now rest → result.now ≡ rest }
{
    let mut rest = bytes;
    for decl in decls {
        rest = behind_member(decl, rest);
    }
    rest
}
