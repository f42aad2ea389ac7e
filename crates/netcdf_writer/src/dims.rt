//! The dimensions of some variables, in the order of their first use.

ghost use Rattle.std.specs.Prelude.{◌≡◌, ◌<◌, ◌≤◌, ◌^◌, ◌++◌, ◌∷◌, [], List};
ghost use Rattle.netcdf_writer.specs.Variables.{all_dims};
ghost use Rattle.netcdf_writer.specs.inner.Tables.{variable_views};
ghost use Rattle.netcdf_writer.specs.inner.Planned.{AreDims, AddsDims, number_in};

use crate::lent::{Lent, dim_name};
use crate::table::Table;
use dap_types::{Dim, Memory};
use std::alloc::Global;

/// The number of a dimension, from 0, and its size.
#[derive(Clone, Copy, Debug)]
pub struct Known {
    number: usize,
    size: u32,
}

/// Dimensions of different names.
#[derive(Drop)]
pub struct Dims<'a> {
    list: Vec<&'a Dim>,
    known: Table<Known>,
}

impl<'a> Dims<'a> {
    /// None.
    pub fn new(alloc: Global) -> Dims<'a>
        ensures { AreDims result [] }
    {
        Dims {
            list: Vec::new(alloc),
            known: Table::new(alloc),
        }
    }

    /// In the order of their numbers.
    pub fn items(&self) -> &[&'a Dim]
        ensures { result.now ≡ self.now.list.items }
    {
        self.list.as_slice()
    }

    /// The number of the dimension of this name, or 0 where there is none.
    pub fn number(&self, dim: &Dim) -> usize
        ensures { result ≡ number_in self.now dim.now }
    {
        match self.known.get(dim_name(dim)) {
            Some(known) => known.number,
            None => 0,
        }
    }

    /// Adds a dimension, unless its name is there. False says that it is there with another size.
    fn add(&mut self, alloc: Global, dim: &'a Dim) -> Result<bool, Memory>
        ensures { AddsDims self.old self.new (dim.now ∷ []) result }
    {
        let name = dim_name(dim);
        if let Some(known) = self.known.get(name) {
            return Ok(known.size == dim.size);
        }
        let known = Known {
            number: self.items().len(),
            size: dim.size,
        };
        self.known.add(alloc, name, known)?;
        self.list.push(dim)?;
        Ok(true)
    }

    /// Adds some dimensions in order. False says that the name of one is there with another size.
    fn add_each(&mut self, alloc: Global, dims: &'a [Dim]) -> Result<bool, Memory>
        ensures { AddsDims self.old self.new dims.now result }
    {
        for dim in dims {
            if !self.add(alloc, dim)? {
                return Ok(false);
            }
        }
        Ok(true)
    }

    /// Adds the dimensions of some variables in order. False says that the name of one is there with
    /// another size.
    pub fn add_all(&mut self, alloc: Global, variables: &[Lent<'a>]) -> Result<bool, Memory>
        ensures { AddsDims self.old self.new (all_dims (variable_views variables.now)) result }
    {
        for variable in variables {
            if !self.add_each(alloc, variable.dims)? {
                return Ok(false);
            }
        }
        Ok(true)
    }
}
