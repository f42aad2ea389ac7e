ghost use Rattle.std.specs.Prelude.{◌≡◌, ◌+◌, ◌<◌, ◌≤◌, ◌^◌, ◌⊎◌, ℕ, Bool, [], ◌∷◌, ◌++◌, length, None, Some, map, nat_le, OnOk, IfErr, MatchResult};
ghost use Rattle.std.specs.List.{list_all};
ghost use Rattle.dap_types.specs.Judged.{Judges, JudgesOne, are_mapped, is_mapped};
ghost use Rattle.dap_types.specs.Model.{Member, array, count, count_all, name_of, scalar};
ghost use Rattle.dap_types.specs.View.{dataset_view, member_view, members_view};
ghost use Rattle.dap_types.specs.WellFormed.{IsWellFormed, fault, has_maps, has_sizes, is_sized, leaf_places, part_places, places};

use crate::size::has_too_many;
use crate::{ArrayDecl, Column, Dataset, Decl, Dim, Id, Names, Unfit, limits};
use std::alloc::Global;

/// The depth of the deepest members that a dataset may have.
const DEEPEST: u32 = limits::MOST_DEPTH as u32;

/// The greatest rank of an array.
const GREATEST_RANK: usize = limits::MOST_DIMENSIONS;

/// The greatest size of a dimension.
const GREATEST_SIZE: u32 = limits::MOST_ELEMENTS as u32;

/// Whether the dataset is well formed: DAP 2.0's rules on names and on the maps of a Grid, and this
/// project's limits on members, depth, rank and sizes. An error is the dataset's first fault, or
/// want of memory. Takes time in proportion to the members and their names.
pub fn check(alloc: Global, dataset: &Dataset) -> Result<(), Unfit>
    ensures well_formed { OnOk result (IsWellFormed (dataset_view dataset.now)) }
    ensures first_fault { IfErr result (λ e. (e ≡ Unfit.Memory) ⊎ (fault (dataset_view dataset.now) ≡ Some e)) }
{
    let members = dataset.members.items();
    if has_too_many(alloc, members)? {
        return Err(Unfit::TooMany);
    }
    check_level(alloc, 1, 1, members)?;
    Ok(())
}

/// Judges the members of a level and their parts, of which the first has this number. The answer is
/// the number behind the last.
#[cycle(checking)]
fn check_level(alloc: Global, first: u32, depth: u32, decls: &[Decl]) -> Result<u32, Unfit>
    requires { first + count_all (members_view decls.now) < 2 ^ 32 }
    ensures { Judges (places depth [] (members_view decls.now)) first result }
{
    let mut names = Names::new(alloc);
    let mut number = first;
    for decl in decls {
        check_member(&mut names, number, depth, decl)?;
        number = check_parts(alloc, number + 1, depth + 1, decl)?;
    }
    Ok(number)
}

/// Judges the parts of a member, of which the first would have this number.
#[cycle(checking)]
#[tactic(auto, using(crate::proofs::Views::views))]
fn check_parts(alloc: Global, first: u32, depth: u32, decl: &Decl) -> Result<u32, Unfit>
    requires { first + count (member_view decl.now) ≤ 2 ^ 32 }
    ensures { Judges (part_places depth (member_view decl.now)) first result }
{
    match decl {
        Decl::Base(_) | Decl::Array(_) => Ok(first),
        Decl::Structure(_, parts) => check_level(alloc, first, depth, parts.items()),
        Decl::Grid(_, array, maps) => check_grid(alloc, first, depth, array, maps.items()),
        Decl::Sequence(_, columns) => check_columns(alloc, first, depth, columns.items()),
    }
}

/// Judges the array of a Grid and its maps.
fn check_grid(
    alloc: Global,
    first: u32,
    depth: u32,
    array: &ArrayDecl,
    maps: &[ArrayDecl],
) -> Result<u32, Unfit>
    requires { first + length maps.now + 2 ≤ 2 ^ 32 }
    ensures { Judges (leaf_places depth [] (map Member.array (array.now ∷ maps.now))) first result }
{
    let mut names = Names::new(alloc);
    check_one(
        &mut names,
        first,
        depth,
        &array.name,
        is_in_bounds(array),
        true,
    )?;
    let mut number = first + 1;
    for map in maps {
        check_one(
            &mut names,
            number,
            depth,
            &map.name,
            is_in_bounds(map),
            true,
        )?;
        number += 1;
    }
    Ok(number)
}

/// Judges the columns of a Sequence.
fn check_columns(alloc: Global, first: u32, depth: u32, columns: &[Column]) -> Result<u32, Unfit>
    requires { first + length columns.now + 1 ≤ 2 ^ 32 }
    ensures { Judges (leaf_places depth [] (map scalar columns.now)) first result }
{
    let mut names = Names::new(alloc);
    let mut number = first;
    for column in columns {
        check_one(&mut names, number, depth, &column.name, true, true)?;
        number += 1;
    }
    Ok(number)
}

/// Judges one member without its parts.
fn check_member(names: &mut Names, number: u32, depth: u32, decl: &Decl) -> Result<(), Unfit>
    ensures { JudgesOne number depth names.old (member_view decl.now) names.new result }
{
    let is_sized = has_sizes(decl);
    let is_mapped = has_maps(decl);
    check_one(names, number, depth, decl.name(), is_sized, is_mapped)
}

#[tactic(auto, using(crate::proofs::Views::views))]
fn has_sizes(decl: &Decl) -> bool
    ensures { result ≡ has_sizes (member_view decl.now) }
{
    match decl {
        Decl::Array(array) => is_in_bounds(array),
        Decl::Base(_) | Decl::Structure(_, _) | Decl::Grid(_, _, _) | Decl::Sequence(_, _) => true,
    }
}

#[tactic(auto, using(crate::proofs::Views::views))]
fn has_maps(decl: &Decl) -> bool
    ensures { result ≡ has_maps (member_view decl.now) }
{
    match decl {
        Decl::Grid(_, array, maps) => has_map_each(maps.items(), array.dims.items()),
        Decl::Base(_) | Decl::Array(_) | Decl::Structure(_, _) | Decl::Sequence(_, _) => true,
    }
}

/// Judges one member without its parts, by its name and what is known of its sizes and maps.
fn check_one(
    names: &mut Names,
    number: u32,
    depth: u32,
    name: &Id,
    is_sized: bool,
    is_mapped: bool,
) -> Result<(), Unfit>
    ensures { (m : Member) → name_of m ≡ name.now → has_sizes m ≡ is_sized → has_maps m ≡ is_mapped → JudgesOne number depth names.old m names.new result }
{
    if depth > DEEPEST {
        return Err(Unfit::TooDeep { member: number });
    }
    if !names.insert(name)? {
        return Err(Unfit::Repeated { member: number });
    }
    if !is_sized {
        return Err(Unfit::BadSize { member: number });
    }
    if !is_mapped {
        return Err(Unfit::BadGrid { member: number });
    }
    Ok(())
}

/// Whether the array has 1 to 32 dimensions, each of a size that is an Int32.
fn is_in_bounds(array: &ArrayDecl) -> bool
    ensures { result ≡ is_sized array.now }
{
    let dims = array.dims.items();
    !dims.is_empty() && dims.len() <= GREATEST_RANK && are_in_bounds(dims)
}

fn are_in_bounds(dims: &[Dim]) -> bool
    ensures { result ≡ list_all (λ dim. nat_le dim.size 2147483647) dims.now }
{
    dims.iter().all(|dim| dim.size <= GREATEST_SIZE)
}

/// Whether there is one map for each dimension, in their order.
fn has_map_each(maps: &[ArrayDecl], dims: &[Dim]) -> bool
    ensures { result ≡ are_mapped maps.now (map (λ dim. dim.size) dims.now) }
{
    if maps.len() != dims.len() {
        return false;
    }
    for (k, map) in maps.iter().enumerate() {
        if !is_map_of(map, dims[k].size) {
            return false;
        }
    }
    true
}

/// Whether the array is a map for a dimension of that size.
fn is_map_of(map: &ArrayDecl, size: u32) -> bool
    ensures { result ≡ is_mapped map.now size }
{
    match map.dims.items() {
        [dim] => dim.size == size,
        _ => false,
    }
}
