use dap_types::{List, Memory};

/// Puts an item behind the others.
pub fn add<T: Drop>(list: &mut List<T>, item: T) -> Result<(), Memory> {
    list.push(item)
}
