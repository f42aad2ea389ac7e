use crate::tests::expecting::expect;
use crate::tests::lists::add;
use dap_types::{
    ArrayDecl, BaseType, Bytes, Column, Dataset, Decl, Dim, Id, Index, List, Memory, Name, Unfit,
    check,
};
use std::alloc::Global;
use std::process::Abort;
use std::test::Fail;

fn crosses<T: Send + Sync>(_: &T) {}

#[test]
fn texts_are_kept_and_may_be_lent_to_threads(rt: HostRuntime) -> Result<(), Fail> {
    let bytes = Bytes::new(rt.alloc(), b"A1")?;
    expect(&rt, bytes.bytes(), b"A1");
    let name = Name::new(rt.alloc(), "buoys.csv")?;
    expect(&rt, name.as_str(), "buoys.csv");
    crosses(&bytes);
    Ok(())
}

#[test]
fn lists_are_kept_and_may_be_lent_to_threads(rt: HostRuntime) -> Result<(), Fail> {
    let mut list = List::new(rt.alloc());
    list.push(7u64)?;
    list.push(8u64)?;
    if let Some(first) = list.items_mut().first_mut() {
        *first = 6;
    }
    expect(&rt, list.items(), [6, 8].as_slice());
    crosses(&list);
    Ok(())
}

#[test]
fn lists_have_room(rt: HostRuntime) -> Result<(), Fail> {
    let mut list = List::with_capacity(rt.alloc(), 2)?;
    list.push(7u64)?;
    list.reserve_exact(1)?;
    list.push(8u64)?;
    list.shrink_to_fit();
    expect(&rt, list.items(), [7, 8].as_slice());
    Ok(())
}

#[test]
fn names_are_escaped(rt: HostRuntime) -> Result<(), Fail> {
    let alloc = rt.alloc();
    expect(&rt, Id::raw(alloc, b"a b")?.bytes(), b"a b");
    expect(
        &rt,
        Id::of_file(alloc, b"a b.%zz\xff")?.bytes(),
        b"a%20b%2E%25zz%FF",
    );
    expect(
        &rt,
        Id::of_constraint(alloc, b"a%2eb%zz")?.bytes(),
        b"a%2Eb%25zz",
    );
    Ok(())
}

#[test]
fn names_of_all_lengths_are_kept_twice(rt: HostRuntime) -> Result<(), Fail> {
    let letters = b"abcdefghijklmnopqrstuvwxyz0123456789_-+*/";
    for count in 0..letters.len() {
        let name = Id::raw(rt.alloc(), &letters[..count])?;
        let twin = name.try_clone()?;
        expect(&rt, name.bytes(), &letters[..count]);
        expect(&rt, twin.bytes(), &letters[..count]);
        assert!(rt; twin == name);
    }
    Ok(())
}

fn add_dim(dims: &mut List<Dim>, size: u32) -> Result<(), Memory> {
    add(dims, Dim { name: None, size })
}

fn array_of(alloc: Global, name: &[u8], dims: List<Dim>) -> Result<ArrayDecl, Memory> {
    let name = Id::raw(alloc, name)?;
    let base = BaseType::Int16;
    Ok(ArrayDecl { name, base, dims })
}

fn array(alloc: Global, name: &[u8], sizes: &[u32]) -> Result<ArrayDecl, Memory> {
    let mut dims = List::new(alloc);
    for size in sizes {
        add_dim(&mut dims, *size)?;
    }
    array_of(alloc, name, dims)
}

fn map(alloc: Global, name: &[u8], size: u32) -> Result<ArrayDecl, Memory> {
    let mut dims = List::new(alloc);
    add_dim(&mut dims, size)?;
    array_of(alloc, name, dims)
}

fn column(alloc: Global, name: &[u8]) -> Result<Column, Memory> {
    Ok(Column {
        name: Id::raw(alloc, name)?,
        base: BaseType::Text,
    })
}

/// Maps `x` and `y` of these sizes.
fn maps_of(alloc: Global, sizes: [u32; 2]) -> Result<List<ArrayDecl>, Memory> {
    let [x, y] = sizes;
    let mut list = List::new(alloc);
    add(&mut list, map(alloc, b"x", x)?)?;
    add(&mut list, map(alloc, b"y", y)?)?;
    Ok(list)
}

/// A Grid `g` of an array of these sizes, with maps `x` and `y` of those.
fn grid(alloc: Global, sizes: &[u32], maps: [u32; 2]) -> Result<Decl, Memory> {
    let name = Id::raw(alloc, b"g")?;
    let data = array(alloc, b"g", sizes)?;
    Ok(Decl::Grid(name, data, maps_of(alloc, maps)?))
}

/// A Sequence `q` of these columns.
fn sequence(alloc: Global, columns: &[&[u8]]) -> Result<Decl, Memory> {
    let mut cells = List::new(alloc);
    for name in columns {
        add(&mut cells, column(alloc, name)?)?;
    }
    Ok(Decl::Sequence(Id::raw(alloc, b"q")?, cells))
}

/// A Structure `s` with that Grid and that Sequence.
fn structure(
    alloc: Global,
    sizes: &[u32],
    maps: [u32; 2],
    columns: &[&[u8]],
) -> Result<Decl, Memory> {
    let mut parts = List::new(alloc);
    add(&mut parts, grid(alloc, sizes, maps)?)?;
    add(&mut parts, sequence(alloc, columns)?)?;
    Ok(Decl::Structure(Id::raw(alloc, b"s")?, parts))
}

/// That Structure, and a scalar of that name.
fn dataset(
    alloc: Global,
    sizes: &[u32],
    maps: [u32; 2],
    columns: &[&[u8]],
    last: &[u8],
) -> Result<Dataset, Memory> {
    let mut members = List::new(alloc);
    add(&mut members, structure(alloc, sizes, maps, columns)?)?;
    add(&mut members, Decl::Base(column(alloc, last)?))?;
    let name = Id::raw(alloc, b"d")?;
    Ok(Dataset { name, members })
}

/// The first fault of such a dataset.
fn fault(
    alloc: Global,
    sizes: &[u32],
    maps: [u32; 2],
    columns: &[&[u8]],
    last: &[u8],
) -> Result<Result<(), Unfit>, Memory> {
    let tried = dataset(alloc, sizes, maps, columns, last)?;
    Ok(check(alloc, &tried))
}

#[test]
fn the_first_fault_is_named(rt: HostRuntime) -> Result<(), Fail> {
    let alloc = rt.alloc();
    let columns: [&[u8]; 2] = [b"a", b"b"];
    let twice: [&[u8]; 2] = [b"a", b"a"];
    let bad_grid = Err(Unfit::BadGrid { member: 2 });
    let none = fault(alloc, &[2, 3], [2, 3], &columns, b"b")?;
    expect(&rt, none, Ok(()));
    let map = fault(alloc, &[2, 3], [2, 4], &twice, b"s")?;
    expect(&rt, map, bad_grid);
    let size = fault(alloc, &[2, 2_147_483_648], [2, 3], &columns, b"b")?;
    expect(&rt, size, bad_grid);
    let column = fault(alloc, &[2, 3], [2, 3], &twice, b"s")?;
    expect(&rt, column, Err(Unfit::Repeated { member: 8 }));
    let last = fault(alloc, &[2, 3], [2, 3], &columns, b"s")?;
    expect(&rt, last, Err(Unfit::Repeated { member: 9 }));
    Ok(())
}

/// Paths, with a dot between two names, and the numbers of their members.
const MEMBERS: [(&[u8], Option<u32>); 8] = [
    (b"s", Some(1)),
    (b"s.g", Some(2)),
    (b"s.g.g", Some(3)),
    (b"s.g.y", Some(5)),
    (b"s.q.x", Some(8)),
    (b"x", Some(9)),
    (b"g", None),
    (b"", None),
];

/// The index of a dataset that is well formed.
fn index_of(alloc: Global, tried: &Dataset) -> Result<Index, Fail> {
    check(alloc, tried)?;
    Ok(Index::new(alloc, tried)?)
}

/// The names between the dots of a text; none where it is empty.
fn path(alloc: Global, text: &[u8]) -> Result<List<Id>, Memory> {
    let mut path = List::new(alloc);
    if text.is_empty() {
        return Ok(path);
    }
    for name in text.split(|byte| *byte == b'.') {
        add(&mut path, Id::raw(alloc, name)?)?;
    }
    Ok(path)
}

/// A path leads to the member of that number, or to none.
fn expect_member<R: Abort>(
    rt: &R,
    alloc: Global,
    index: &Index,
    text: &[u8],
    member: Option<u32>,
) -> Result<(), Fail> {
    let path = path(alloc, text)?;
    expect(rt, index.member(path.items()), member);
    Ok(())
}

#[test]
fn members_are_found_by_their_paths(rt: HostRuntime) -> Result<(), Fail> {
    let alloc = rt.alloc();
    let columns: [&[u8]; 2] = [b"a", b"x"];
    let tried = dataset(alloc, &[2, 3], [2, 3], &columns, b"x")?;
    let index = index_of(alloc, &tried)?;
    for (text, member) in MEMBERS {
        expect_member(&rt, alloc, &index, text, member)?;
    }
    Ok(())
}
