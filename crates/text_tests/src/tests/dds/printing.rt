use crate::tests::expecting::expect;
use crate::tests::lists::add;
use dap_types::{ArrayDecl, BaseType, Column, Dataset, Decl, Dim, Id, List, Memory};
use dds_text::print;
use std::alloc::Global;
use std::process::Abort;
use std::test::Fail;
use text_lines::put_line;

fn named(alloc: Global, name: &[u8], size: u32) -> Result<Dim, Memory> {
    let name = Some(Id::raw(alloc, name)?);
    Ok(Dim { name, size })
}

fn array(alloc: Global, base: BaseType, name: &[u8], dims: List<Dim>) -> Result<ArrayDecl, Memory> {
    let name = Id::raw(alloc, name)?;
    Ok(ArrayDecl { name, base, dims })
}

fn map(alloc: Global, name: &[u8], size: u32) -> Result<ArrayDecl, Memory> {
    let mut dims = List::new(alloc);
    add(&mut dims, named(alloc, name, size)?)?;
    array(alloc, BaseType::Int32, name, dims)
}

fn maps(alloc: Global) -> Result<List<ArrayDecl>, Memory> {
    let mut maps = List::new(alloc);
    add(&mut maps, map(alloc, b"lat", 1)?)?;
    add(&mut maps, map(alloc, b"lon", 2)?)?;
    Ok(maps)
}

/// A Grid as a netCDF file gives it.
fn grid(alloc: Global) -> Result<Decl, Memory> {
    let mut dims = List::new(alloc);
    add(&mut dims, named(alloc, b"lat", 1)?)?;
    add(&mut dims, named(alloc, b"lon", 2)?)?;
    let data = array(alloc, BaseType::Int16, b"g", dims)?;
    let name = Id::raw(alloc, b"g")?;
    Ok(Decl::Grid(name, data, maps(alloc)?))
}

/// An array without names of dimensions.
fn unnamed(alloc: Global) -> Result<Decl, Memory> {
    let mut dims = List::new(alloc);
    for size in [0, 12] {
        add(&mut dims, Dim { name: None, size })?;
    }
    Ok(Decl::Array(array(alloc, BaseType::Url, b"u", dims)?))
}

fn column(alloc: Global, name: &[u8]) -> Result<Column, Memory> {
    let name = Id::raw(alloc, name)?;
    let base = BaseType::Text;
    Ok(Column { name, base })
}

fn sequence(alloc: Global) -> Result<Decl, Memory> {
    let mut columns = List::new(alloc);
    add(&mut columns, column(alloc, b"station")?)?;
    Ok(Decl::Sequence(Id::raw(alloc, b"q")?, columns))
}

/// A Sequence inside a Structure.
fn structure(alloc: Global) -> Result<Decl, Memory> {
    let mut parts = List::new(alloc);
    add(&mut parts, sequence(alloc)?)?;
    Ok(Decl::Structure(Id::raw(alloc, b"s")?, parts))
}

/// That Grid, that array and that Structure.
fn dataset(alloc: Global) -> Result<Dataset, Memory> {
    let mut members = List::new(alloc);
    add(&mut members, grid(alloc)?)?;
    add(&mut members, unnamed(alloc)?)?;
    add(&mut members, structure(alloc)?)?;
    let name = Id::raw(alloc, b"g.nc")?;
    Ok(Dataset { name, members })
}

/// The dataset is printed so.
fn expect_printed<R: Abort>(
    rt: &R,
    alloc: Global,
    dataset: &Dataset,
    text: &[u8],
) -> Result<(), Fail> {
    expect(rt, print(alloc, dataset)?.bytes(), text);
    Ok(())
}

#[test]
fn a_dataset_is_printed(rt: HostRuntime) -> Result<(), Fail> {
    let lines =
        b"Dataset {\n    Grid {\n      Array:\n        Int16 g[lat = 1][lon = 2];\n      Maps:\n        Int32 lat[lat = 1];\n        Int32 lon[lon = 2];\n    } g;\n    Url u[0][12];\n    Structure {\n        Sequence {\n            String station;\n        } q;\n    } s;\n} g.nc;\n";
    expect_printed(&rt, rt.alloc(), &dataset(rt.alloc())?, lines)
}

/// A Grid without maps.
fn innermost(alloc: Global) -> Result<Decl, Memory> {
    let data = array(alloc, BaseType::Byte, b"b", List::new(alloc))?;
    let name = Id::raw(alloc, b"g")?;
    Ok(Decl::Grid(name, data, List::new(alloc)))
}

/// A Structure in a Structure, so many of them, around a Grid without maps.
fn nested(alloc: Global, depth: u8) -> Result<List<Decl>, Memory> {
    let mut members = List::new(alloc);
    if depth == 0 {
        add(&mut members, innermost(alloc)?)?;
        return Ok(members);
    }
    let parts = nested(alloc, depth - 1)?;
    add(&mut members, Decl::Structure(Id::raw(alloc, b"s")?, parts))?;
    Ok(members)
}

/// The lines of that Grid, that much inside.
fn put_innermost(lines: &mut Vec<u8>, inside: u16) -> Result<(), Memory> {
    let inside = u32::from(inside);
    put_line(lines, inside, b"Grid {")?;
    put_line(lines, inside + 2, b"Array:")?;
    put_line(lines, inside + 4, b"Byte b;")?;
    put_line(lines, inside + 2, b"Maps:")?;
    put_line(lines, inside, b"} g;")
}

fn nested_lines(alloc: Global, depth: u8) -> Result<Vec<u8>, Memory> {
    let mut lines = Vec::new(alloc);
    put_line(&mut lines, 0, b"Dataset {")?;
    for level in 1..=depth {
        put_line(&mut lines, 4 * u32::from(level), b"Structure {")?;
    }
    put_innermost(&mut lines, 4 * (u16::from(depth) + 1))?;
    for level in (1..=depth).rev() {
        put_line(&mut lines, 4 * u32::from(level), b"} s;")?;
    }
    put_line(&mut lines, 0, b"} d;")?;
    Ok(lines)
}

fn nested_dataset(alloc: Global, depth: u8) -> Result<Dataset, Memory> {
    let members = nested(alloc, depth)?;
    let name = Id::raw(alloc, b"d")?;
    Ok(Dataset { name, members })
}

/// 14 Structures around a Grid are 16 levels, the most that a well-formed dataset has; print goes
/// deeper.
#[test]
fn nested_members_are_printed(rt: HostRuntime) -> Result<(), Fail> {
    for depth in [1, 13, 14, 15, 100] {
        let dataset = nested_dataset(rt.alloc(), depth)?;
        let lines = nested_lines(rt.alloc(), depth)?;
        expect_printed(&rt, rt.alloc(), &dataset, &lines)?;
    }
    Ok(())
}
