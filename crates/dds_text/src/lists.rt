//! Lists that take no more memory than their items: most levels are small, and a list of its own
//! accord begins with room for four.

ghost use Rattle.std.specs.Prelude.{◌≡◌, [], ◌∷◌, ◌++◌, OnOk};

use dap_types::{List, Memory};

/// The most items for which a list grows by one place at a time.
const SMALL: usize = 8;

/// Puts an item behind the others.
pub fn push<T: Drop>(list: &mut List<T>, item: T) -> Result<(), Memory>
    ensures { OnOk result (list.new ≡ list.old ++ item ∷ []) }
{
    if list.items().len() < SMALL {
        list.reserve_exact(1)?;
    }
    list.push(item)
}

/// The list without room for more items.
pub fn fitted<T>(list: List<T>) -> List<T>
    ensures { result ≡ list }
{
    let mut list = list;
    list.shrink_to_fit();
    list
}
