//! What the values of a response cost as trees in memory. A tree has a list for each index of each dimension but
//! the last, so an array with sizes of 1 or 0 can cost far more than its bytes.

use dap_types::{ArrayDecl, Decl, Dim};

/// The most that is built, in values, of which a list counts four: some 1 GB, and more than the values of any body
/// that is saved and has no such sizes.
const MOST: u64 = 20_000_000;

/// The cost of an array of these dimensions.
fn dims_cost(dims: &[Dim]) -> u64 {
    let mut lists = 0u64;
    let mut items = 1u64;
    for dim in dims {
        lists = lists.saturating_add(items);
        items = items.saturating_mul(u64::from(dim.size));
    }
    items.saturating_add(lists.saturating_mul(4))
}

fn arrays_cost(arrays: &[ArrayDecl]) -> u64 {
    let mut cost = 0u64;
    for array in arrays {
        cost = cost.saturating_add(dims_cost(array.dims.items()));
    }
    cost
}

/// The cost of a variable. The rows of a Sequence have more bytes than they cost.
#[cycle(costs)]
fn member_cost(decl: &Decl) -> u64 {
    match decl {
        Decl::Base(_) => 1,
        Decl::Array(array) => dims_cost(array.dims.items()),
        Decl::Structure(_, parts) => members_cost(parts.items()),
        Decl::Grid(_, array, maps) => {
            dims_cost(array.dims.items()).saturating_add(arrays_cost(maps.items()))
        }
        Decl::Sequence(_, _) => 1,
    }
}

#[cycle(costs)]
fn members_cost(decls: &[Decl]) -> u64 {
    let mut cost = 0u64;
    for decl in decls {
        cost = cost.saturating_add(member_cost(decl));
    }
    cost
}

/// Whether there is room for the values of these variables as trees.
pub(crate) fn has_room(decls: &[Decl]) -> bool {
    members_cost(decls) <= MOST
}
