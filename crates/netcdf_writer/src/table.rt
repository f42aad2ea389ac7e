ghost use Rattle.std.specs.Prelude.{◌≡◌, ℕ, List, None, OnOk, IfOk, option_copied};
ghost use Rattle.netcdf_writer.specs.inner.Tables.{Adds, under};

use dap_types::Memory;
use indexmap::IndexMap;
use std::alloc::Global;
use std::hash::{BuildHasherDefault, DefaultHasher};

/// SipHash: names whose hashes are alike are found by trying names alone.
type NameHash = BuildHasherDefault<DefaultHasher>;

/// What stands first under each name.
#[derive(Drop)]
pub struct Table<T> {
    map: IndexMap<Vec<u8>, T, NameHash>,
}

impl<T: Drop> Table<T> {
    /// Nothing.
    pub fn new(alloc: Global) -> Table<T>
        ensures { (q : List ℕ) → under result q ≡ None }
    {
        Table {
            map: IndexMap::with_hasher(alloc, BuildHasherDefault::new()),
        }
    }

    /// What stands under a name.
    pub fn get(&self, name: &[u8]) -> Option<&T>
        ensures { option_copied result ≡ under self.now name.now }
    {
        self.map.get(name)
    }

    /// Puts it under a name, unless something stands there.
    pub fn add(&mut self, alloc: Global, name: &[u8], value: T) -> Result<(), Memory>
        ensures { OnOk result (Adds (under self.old) (under self.new) name.now value) }
    {
        if self.map.contains_key(name) {
            return Ok(());
        }
        self.map.insert(Vec::from_slice(alloc, name)?, value)?;
        Ok(())
    }
}
