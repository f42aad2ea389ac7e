ghost use Rattle.std.specs.Prelude.{◌≡◌, ℕ, ◌+◌, ◌<◌, ◌≤◌, ◌^◌, Bool, true, false, None, IfOk, length, option_map, slice_get};
ghost use Rattle.std.specs.Option.{option_copied, option_map_or};
ghost use Rattle.dap_types.specs.Limits.{most_elements};
ghost use Rattle.dap_types.specs.View.{dataset_view};
ghost use Rattle.dap_types.specs.WellFormed.{IsWellFormed};
ghost use Rattle.das_text.specs.View.{attributes_view};
ghost use Rattle.netcdf_source.specs.Attributes.{attributes_of};
ghost use Rattle.netcdf_source.specs.Layouts.{layout_of, LeafHasSizes, LeafIsPlaced, LeafIsShaped};
ghost use Rattle.netcdf_source.specs.Mapping.{base_of, dataset_of, is_char, is_over_records, leaf_variable, leaves_from, records_of, with_records, HaveSameShape};
ghost use Rattle.netcdf_source.specs.Parts.{past_end, record_size};
ghost use Rattle.netcdf_source.specs.inner.Sound.{IsSound};

use crate::coordinates::coordinates;
use crate::copies::with_records;
use crate::das::attributes_of;
use crate::header::Contents;
use crate::joining::{has_record_dimension, have_same_shape};
use crate::layouts::layouts;
use crate::leaves::{leaf_in, leaves};
use crate::mapping::{base_of, dataset_of, grids};
use crate::parts::is_record;
use crate::texts::is_char;
use dap_types::{BaseType, Dataset, Layout, List, Memory};
use das_text::Attributes;
use std::alloc::Global;
use std::marker::Model;

/// The header of a netCDF classic file, each variable of which ends within the file. Contracts see
/// what it says and the length of the file.
#[derive(Drop)]
pub struct Header {
    contents: Contents,
    /// The bytes of the file.
    length: u64,
    /// The number of each dimension's coordinate variable.
    coordinates: Vec<Option<u32>>,
    /// Which variables are the arrays of Grids.
    grids: Vec<bool>,
    /// The number of the variable of each member of the dataset, none for a Grid.
    leaves: Vec<Option<u32>>,
    /// Where the elements of each variable stand.
    layouts: List<Layout>,
}

impl Model for Header {
    ghost use Rattle.std.specs.Prelude.{◌≡◌, ◌<◌, ◌^◌, None, map};
    ghost use Rattle.netcdf_source.specs.Coordinates.{AreCoordinates};
    ghost use Rattle.netcdf_source.specs.File.{FileHeader};
    ghost use Rattle.netcdf_source.specs.Mapping.{is_grid, leaves_from};
    ghost use Rattle.netcdf_source.specs.Parts.{past_end};
    ghost use Rattle.netcdf_source.specs.inner.Sound.{IsSound};
    ghost use Rattle.netcdf_source.specs.inner.Told.{told_layout};

    ghost Value = { FileHeader };

    ghost view = { λ h. record { contents = h.contents; length = h.length } };

    ghost invariant = { λ h. IsSound h.contents × (past_end h.contents h.length ≡ None)
        × AreCoordinates h.contents h.coordinates.items
        × (h.leaves.items ≡ leaves_from h.contents 0 h.contents.variables)
        × (h.layouts ≡ map (told_layout h.contents) h.contents.variables)
        × (h.grids.items ≡ map (is_grid h.contents) h.contents.variables)
        × (h.length < 2 ^ 63) };
}

impl Header {
    /// The header that says this, of a file of that length with so many bytes a record.
    pub(crate) fn new(
        alloc: Global,
        contents: Contents,
        step: u64,
        length: u64,
    ) -> Result<Header, Memory>
        requires sound { IsSound contents }
        requires record { step ≡ record_size contents.dimensions contents.variables }
        requires within { past_end contents length ≡ None }
        requires length { length < 2 ^ 63 }
        ensures contents { IfOk result (λ h. h.contents ≡ contents) }
        ensures length { IfOk result (λ h. h.length ≡ length) }
    {
        let coordinates = coordinates(alloc, &contents)?;
        let grids = grids(alloc, &contents, &coordinates)?;
        let leaves = leaves(alloc, &contents, &coordinates, &grids)?;
        let layouts = layouts(alloc, &contents, step)?;
        Ok(Header {
            contents,
            length,
            coordinates,
            grids,
            leaves,
            layouts,
        })
    }

    /// The dataset of the file with that name: its variables in order, with coordinate variables as
    /// arrays, variables over coordinate variables as Grids, and chars as Strings (DAP 2.0, DDS; the
    /// mapping is this project's).
    pub fn dataset(&self, alloc: Global, file_name: &[u8]) -> Result<Dataset, Memory>
        ensures mapped { IfOk result (λ d. dataset_view d ≡ dataset_of self.now.contents file_name.now) }
        ensures well_formed { IfOk result (λ d. IsWellFormed (dataset_view d)) }
    {
        dataset_of(
            alloc,
            &self.contents,
            &self.coordinates,
            &self.grids,
            file_name,
        )
    }

    /// The attributes of the file: a container for each variable of the dataset in the file's order,
    /// then `NC_GLOBAL` for those of the file itself (DAP 2.0, DAS; which type stands for which is
    /// this project's). Fails where memory is wanted.
    pub fn attributes(&self, alloc: Global) -> Result<Attributes, Memory>
        ensures { IfOk result (λ a. attributes_view a ≡ attributes_of self.now.contents) }
    {
        attributes_of(alloc, &self.contents)
    }

    /// How many members the dataset has, which are numbered from 1.
    pub fn members(&self) -> u32
        ensures { result ≡ length (leaves_from self.now.contents 0 self.now.contents.variables) }
    {
        self.leaves.len() as u32
    }

    /// The type of the elements of a leaf, `leaf` being its number as a member of the dataset. None
    /// where that member is no leaf.
    pub fn base(&self, leaf: u32) -> Option<BaseType>
        ensures { result ≡ option_map (λ v. base_of v.external_type) (leaf_variable self.now.contents leaf) }
    {
        match leaf_in(&self.leaves, leaf) {
            Some(number) => base_at(&self.contents, number),
            None => None,
        }
    }

    /// Where the elements of a leaf stand in the file, `leaf` being its number as a member of the
    /// dataset, from 1. None where that member is no leaf.
    pub fn layout(&self, leaf: u32) -> Option<&Layout>
        ensures leaf { option_copied result ≡ option_map (layout_of self.now.contents) (leaf_variable self.now.contents leaf) }
        ensures below { self.now.length < 2 ^ 63 }
        ensures placed { LeafIsPlaced self.now.contents self.now.length leaf (option_copied result) }
        ensures shaped { LeafIsShaped self.now.contents leaf (option_copied result) }
    {
        match leaf_in(&self.leaves, leaf) {
            Some(number) => layout_at(self.layouts.items(), number),
            None => None,
        }
    }

    /// The number of records (netCDF classic format, `numrecs`), where the file has a record dimension.
    pub fn records(&self) -> Option<u64>
        ensures { result ≡ records_of self.now.contents }
    {
        if has_record_dimension(self.contents.dimensions.items()) {
            Some(self.contents.records)
        } else {
            None
        }
    }

    /// Whether another header has the same dimensions, each with its name and length, and the same
    /// variables, each with its name, type and dimensions.
    pub fn same_shape(&self, other: &Header) -> bool
        ensures same { result ≡ true → HaveSameShape self.now.contents other.now.contents }
        ensures differ { HaveSameShape self.now.contents other.now.contents → result ≡ true }
    {
        have_same_shape(&self.contents, &other.contents)
    }

    /// The dataset of the file with that name, as if it had so many records.
    pub fn dataset_with(
        &self,
        alloc: Global,
        file_name: &[u8],
        records: u64,
    ) -> Result<Dataset, Memory>
        requires { records ≤ most_elements }
        ensures mapped { IfOk result (λ d. dataset_view d ≡ dataset_of (with_records records self.now.contents) file_name.now) }
        ensures well_formed { IfOk result (λ d. IsWellFormed (dataset_view d)) }
    {
        let contents = with_records(alloc, &self.contents, records)?;
        let coordinates = coordinates(alloc, &contents)?;
        let grids = grids(alloc, &contents, &coordinates)?;
        dataset_of(alloc, &contents, &coordinates, &grids, file_name)
    }

    /// Whether the first dimension of a leaf is the record dimension, `leaf` being its number as a
    /// member of the dataset.
    pub fn is_record(&self, leaf: u32) -> bool
        ensures sizes { LeafHasSizes self.now.contents leaf }
        ensures over_records { result ≡ option_map_or (is_over_records self.now.contents) (leaf_variable self.now.contents leaf) false }
    {
        match leaf_in(&self.leaves, leaf) {
            Some(number) => is_record_at(&self.contents, number),
            None => false,
        }
    }

    /// Whether a leaf is a variable of chars, whose texts stand in the file without their lengths.
    pub fn is_char(&self, leaf: u32) -> bool
        ensures { result ≡ option_map_or is_char (leaf_variable self.now.contents leaf) false }
    {
        match leaf_in(&self.leaves, leaf) {
            Some(number) => is_char_at(&self.contents, number),
            None => false,
        }
    }
}

/// The layout with that number, from 0.
fn layout_at(layouts: &[Layout], number: u32) -> Option<&Layout>
    ensures { option_copied result ≡ slice_get layouts.now number }
{
    layouts.get(number as usize)
}

/// Whether the variable with that number is one of chars.
fn is_char_at(contents: &Contents, number: u32) -> bool
    ensures { result ≡ option_map_or is_char (slice_get contents.now.variables number) false }
{
    match contents.variables.items().get(number as usize) {
        Some(variable) => is_char(variable),
        None => false,
    }
}

/// Whether the variable with that number is a record variable.
fn is_record_at(contents: &Contents, number: u32) -> bool
    ensures { result ≡ option_map_or (is_over_records contents.now) (slice_get contents.now.variables number) false }
{
    match contents.variables.items().get(number as usize) {
        Some(variable) => is_record(contents.dimensions.items(), variable.dimensions.items()),
        None => false,
    }
}

/// The type of the elements of the variable with that number.
fn base_at(contents: &Contents, number: u32) -> Option<BaseType>
    ensures { result ≡ option_map (λ v. base_of v.external_type) (slice_get contents.now.variables number) }
{
    match contents.variables.items().get(number as usize) {
        Some(variable) => Some(base_of(variable.external_type)),
        None => None,
    }
}
