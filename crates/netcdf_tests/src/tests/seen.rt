use dap_types::{ArrayDecl, BaseType, Column, Dataset, Decl, Dim, Id, Layout};
use netcdf_source::{Header, read_header};
use std::alloc::Global;
use std::test::Fail;

/// The header of a file that begins with these bytes, where it has one.
fn front_header(alloc: Global, bytes: &[u8], file_len: u64) -> Option<Header> {
    if bytes.len() as u64 != file_len.min(1048576) || file_len >= 1 << 63 {
        return None;
    }
    read_header(alloc, bytes, file_len).ok()
}

/// The header of a file that begins with these bytes.
pub fn header(alloc: Global, bytes: &[u8], file_len: u64) -> Result<Header, Fail> {
    Ok(front_header(alloc, bytes, file_len).ok_or("a header")?)
}

fn put(out: &mut Vec<u8>, bytes: &[u8]) -> Result<(), Fail> {
    out.extend_from_slice(bytes)?;
    Ok(())
}

fn put_type(out: &mut Vec<u8>, base: BaseType) -> Result<(), Fail> {
    match base {
        BaseType::Byte => put(out, b"Byte "),
        BaseType::Int16 => put(out, b"Int16 "),
        BaseType::UInt16 => put(out, b"UInt16 "),
        BaseType::Int32 => put(out, b"Int32 "),
        BaseType::UInt32 => put(out, b"UInt32 "),
        BaseType::Float32 => put(out, b"Float32 "),
        BaseType::Float64 => put(out, b"Float64 "),
        BaseType::Text => put(out, b"String "),
        _ => put(out, b"other "),
    }
}

/// A type and a name behind it.
fn put_column(out: &mut Vec<u8>, base: BaseType, name: &Id) -> Result<(), Fail> {
    put_type(out, base)?;
    put(out, name.bytes())
}

fn put_size(alloc: Global, out: &mut Vec<u8>, size: u32) -> Result<(), Fail> {
    let text = format!(in alloc; "={size}]")?;
    put(out, text.as_bytes())
}

fn put_name(out: &mut Vec<u8>, name: &Option<Id>) -> Result<(), Fail> {
    match name {
        Some(name) => put(out, name.bytes()),
        None => Ok(()),
    }
}

fn describe_dimension(alloc: Global, out: &mut Vec<u8>, dim: &Dim) -> Result<(), Fail> {
    put(out, b"[")?;
    put_name(out, &dim.name)?;
    put_size(alloc, out, dim.size)
}

fn describe_array(alloc: Global, out: &mut Vec<u8>, array: &ArrayDecl) -> Result<(), Fail> {
    put_column(out, array.base, &array.name)?;
    for dim in array.dims.items() {
        describe_dimension(alloc, out, dim)?;
    }
    put(out, b";")
}

fn describe_grid(
    alloc: Global,
    out: &mut Vec<u8>,
    name: &Id,
    array: &ArrayDecl,
    maps: &[ArrayDecl],
) -> Result<(), Fail> {
    put(out, name.bytes())?;
    put(out, b"(")?;
    describe_array(alloc, out, array)?;
    for map in maps {
        describe_array(alloc, out, map)?;
    }
    put(out, b")")
}

fn describe_column(out: &mut Vec<u8>, column: &Column) -> Result<(), Fail> {
    put_column(out, column.base, &column.name)?;
    put(out, b";")
}

fn describe_member(alloc: Global, out: &mut Vec<u8>, member: &Decl) -> Result<(), Fail> {
    match member {
        Decl::Base(column) => describe_column(out, column),
        Decl::Array(array) => describe_array(alloc, out, array),
        Decl::Grid(name, array, maps) => describe_grid(alloc, out, name, array, maps.items()),
        _ => put(out, b"other;"),
    }
}

/// The variables of a dataset in a line.
fn describe(alloc: Global, dataset: &Dataset) -> Result<Vec<u8>, Fail> {
    let mut out = Vec::from_slice(alloc, dataset.name.bytes())?;
    put(&mut out, b":")?;
    for member in dataset.members.items() {
        describe_member(alloc, &mut out, member)?;
    }
    Ok(out)
}

/// Where the elements of a leaf stand: its place, its steps and the bytes of an element.
#[derive(Clone, Copy)]
pub struct Place<'a> {
    pub base: u64,
    pub steps: &'a [u64],
    pub size: u32,
}

/// Whether the elements of a layout stand there.
fn is_place(layout: &Layout, place: &Place) -> bool {
    layout.base == place.base && layout.size == place.size && layout.steps.items() == place.steps
}

fn is_placed(layout: &Layout, place: &Option<Place>) -> bool {
    match place {
        Some(place) => is_place(layout, place),
        None => false,
    }
}

/// Whether the elements of a leaf stand there, or it is no leaf.
fn is_at(header: &Header, leaf: u32, place: &Option<Place>) -> bool {
    match header.layout(leaf) {
        Some(layout) => is_placed(layout, place),
        None => place.is_none(),
    }
}

/// Whether the leaves stand there, numbered from 0.
fn are_at(header: &Header, places: &[Option<Place>]) -> bool {
    for (leaf, place) in places.iter().enumerate() {
        if !is_at(header, (leaf % 1000) as u32, place) {
            return false;
        }
    }
    true
}

/// Whether the variables of a dataset are these.
pub fn is_described(alloc: Global, dataset: &Dataset, line: &[u8]) -> Result<bool, Fail> {
    let made = describe(alloc, dataset)?;
    Ok(made.as_slice() == line)
}

/// Whether the variables of the dataset of a file with that name are these.
pub fn has_variables(
    alloc: Global,
    header: &Header,
    file_name: &[u8],
    line: &[u8],
) -> Result<bool, Fail> {
    let dataset = header.dataset(alloc, file_name)?;
    is_described(alloc, &dataset, line)
}

/// Whether a file becomes this dataset, with leaves that stand there, numbered from 0.
pub fn becomes(
    alloc: Global,
    bytes: &[u8],
    file_len: u64,
    dataset: &[u8],
    places: &[Option<Place>],
) -> Result<bool, Fail> {
    let header = header(alloc, bytes, file_len)?;
    let is_described = has_variables(alloc, &header, b"a/f.nc", dataset)?;
    let has_places = are_at(&header, places);
    Ok(is_described & has_places)
}

pub fn at(base: u64, steps: &[u64], size: u32) -> Option<Place<'_>> {
    Some(Place { base, steps, size })
}

/// The place of the element at these indexes.
fn element_place(layout: &Layout, indexes: &[u64]) -> u64 {
    let mut at = layout.base;
    for (step, index) in layout.steps.items().iter().zip(indexes.iter()) {
        at = at.wrapping_add(step.wrapping_mul(*index));
    }
    at
}

/// The bytes of a leaf's element at these indexes.
pub fn element<'a>(
    header: &Header,
    file: &'a [u8],
    leaf: u32,
    indexes: &[u64],
) -> Option<&'a [u8]> {
    let layout = header.layout(leaf)?;
    let behind = file.get(element_place(layout, indexes) as usize..)?;
    behind.get(..layout.size as usize)
}

/// The number that stands in some bytes: a byte without a sign, or more of them with one.
pub fn number(bytes: &[u8]) -> Option<i64> {
    match bytes {
        [a] => Some(i64::from(*a)),
        [a, b] => Some(i64::from(i16::from_be_bytes([*a, *b]))),
        [a, b, c, d] => Some(i64::from(i32::from_be_bytes([*a, *b, *c, *d]))),
        [a, b, c, d, e, f, g, h] => Some(i64::from_be_bytes([*a, *b, *c, *d, *e, *f, *g, *h])),
        _ => None,
    }
}
