use dap_types::{ArrayDecl, BaseType, Column, Dataset, Decl, Dim, Id, List, Memory};
use std::alloc::Global;

fn array(
    alloc: Global,
    base: BaseType,
    name: &[u8],
    dims: &[(&[u8], u32)],
) -> Result<ArrayDecl, Memory> {
    let mut list = List::new(alloc);
    for (name, size) in dims {
        list.push(Dim {
            name: Some(Id::raw(alloc, name)?),
            size: *size,
        })?;
    }
    Ok(ArrayDecl {
        name: Id::raw(alloc, name)?,
        base,
        dims: list,
    })
}

fn column(alloc: Global, base: BaseType, name: &[u8]) -> Result<Column, Memory> {
    Ok(Column {
        name: Id::raw(alloc, name)?,
        base,
    })
}

/// A Grid of `Int16 name[lat = 2][lon = 3]`.
fn grid(alloc: Global, name: &[u8]) -> Result<Decl, Memory> {
    let data = array(alloc, BaseType::Int16, name, &[(b"lat", 2), (b"lon", 3)])?;
    let mut maps = List::new(alloc);
    maps.push(array(alloc, BaseType::Int32, b"lat", &[(b"lat", 2)])?)?;
    maps.push(array(alloc, BaseType::Int32, b"lon", &[(b"lon", 3)])?)?;
    Ok(Decl::Grid(Id::raw(alloc, name)?, data, maps))
}

/// A Grid of a square array, whose maps have one size.
fn square(alloc: Global) -> Result<Decl, Memory> {
    let data = array(alloc, BaseType::Int16, b"q", &[(b"i", 3), (b"j", 3)])?;
    let mut maps = List::new(alloc);
    maps.push(array(alloc, BaseType::Int32, b"i", &[(b"i", 3)])?)?;
    maps.push(array(alloc, BaseType::Int32, b"j", &[(b"j", 3)])?)?;
    Ok(Decl::Grid(Id::raw(alloc, b"q")?, data, maps))
}

fn buoys(alloc: Global) -> Result<Decl, Memory> {
    let mut columns = List::new(alloc);
    columns.push(column(alloc, BaseType::Text, b"station")?)?;
    columns.push(column(alloc, BaseType::Int32, b"depth")?)?;
    columns.push(column(alloc, BaseType::Float32, b"heat")?)?;
    Ok(Decl::Sequence(Id::raw(alloc, b"buoys")?, columns))
}

/// A Structure of two Grids and a scalar.
fn model(alloc: Global) -> Result<Decl, Memory> {
    let mut parts = List::new(alloc);
    parts.push(grid(alloc, b"h")?)?;
    parts.push(square(alloc)?)?;
    parts.push(Decl::Base(column(alloc, BaseType::Byte, b"u")?))?;
    Ok(Decl::Structure(Id::raw(alloc, b"s")?, parts))
}

/// The members by number: an array `v` (1), a Grid `g` with its array and maps (2 to 5), an array `e`
/// without elements (6), a Sequence `buoys` (7) of `station`, `depth` and `heat`, a scalar `b` (11),
/// and a Structure `s` (12) of a Grid `h` (13 to 16), a Grid `q` (17 to 20) and a scalar `u` (21).
pub fn dataset(alloc: Global) -> Result<Dataset, Memory> {
    let mut members = List::new(alloc);
    let v = array(alloc, BaseType::Int32, b"v", &[(b"y", 3), (b"x", 4)])?;
    members.push(Decl::Array(v))?;
    members.push(grid(alloc, b"g")?)?;
    members.push(Decl::Array(array(alloc, BaseType::Int16, b"e", &[(b"t", 0)])?))?;
    members.push(buoys(alloc)?)?;
    members.push(Decl::Base(column(alloc, BaseType::Byte, b"b")?))?;
    members.push(model(alloc)?)?;
    Ok(Dataset {
        name: Id::raw(alloc, b"all.nc")?,
        members,
    })
}
