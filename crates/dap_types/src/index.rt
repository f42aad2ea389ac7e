ghost use Rattle.std.specs.Prelude.{◌≡◌, ◌+◌, ◌<◌, ◌≤◌, ◌^◌, ℕ, List, Option, [], ◌∷◌, ◌++◌, length, map, IfOk, OnOk};
ghost use Rattle.dap_types.specs.Numbered.{Adds, Numbers, number_in, under};
ghost use Rattle.dap_types.specs.Model.{count, count_all, name_of};
ghost use Rattle.dap_types.specs.View.{dataset_view, member_view, members_view};
ghost use Rattle.dap_types.specs.WellFormed.{IsWellFormed, number_of, part_paths, paths};

use crate::{ArrayDecl, Column, Dataset, Decl, Id, Memory};
use indexmap::IndexMap;
use std::alloc::Global;
use std::hash::{BuildHasherDefault, DefaultHasher};

/// SipHash: names whose hashes are alike are found by trying names alone.
type PathHash = BuildHasherDefault<DefaultHasher>;

/// The numbers of a dataset's members by their whole paths.
#[derive(Drop)]
pub struct Index {
    numbers: IndexMap<Vec<Id>, u32, PathHash>,
}

impl Index {
    /// The index of a dataset. Fails where memory is wanted.
    pub fn new(alloc: Global, dataset: &Dataset) -> Result<Index, Memory>
        requires { IsWellFormed (dataset_view dataset.now) }
        ensures { IfOk result (λ index. (path : List (List ℕ)) → number_in index path ≡ number_of (dataset_view dataset.now) path) }
    {
        let mut index = Index {
            numbers: IndexMap::with_hasher(alloc, BuildHasherDefault::new()),
        };
        add_level(alloc, &mut index, &[], 1, dataset.members.items())?;
        Ok(index)
    }

    /// The number of the member with this path, the names from the top down. None where there is no
    /// such member.
    pub fn member(&self, path: &[Id]) -> Option<u32>
        ensures { result ≡ number_in self.now path.now }
    {
        self.numbers.get(path).copied()
    }

    /// Gives a path its number, unless it has one.
    fn add(&mut self, path: Vec<Id>, number: u32) -> Result<(), Memory>
        ensures { OnOk result (Adds (number_in self.old) (number_in self.new) number (path.items ∷ [])) }
    {
        if self.numbers.contains_key(path.as_slice()) {
            return Ok(());
        }
        self.numbers.insert(path, number)?;
        Ok(())
    }
}

/// The path of a part.
fn joined(alloc: Global, whole: &[Id], name: &Id) -> Result<Vec<Id>, Memory>
    ensures { IfOk result (λ path. path.items ≡ whole.now ++ name.now ∷ []) }
{
    let mut path = Vec::new(alloc);
    for id in whole {
        path.push(id.try_clone()?)?;
    }
    path.push(name.try_clone()?)?;
    Ok(path)
}

/// Adds the members of a level and their parts, of which the first has this number. The answer is
/// the number behind the last.
#[cycle(numbering)]
fn add_level(
    alloc: Global,
    index: &mut Index,
    whole: &[Id],
    first: u32,
    decls: &[Decl],
) -> Result<u32, Memory>
    requires { first + count_all (members_view decls.now) < 2 ^ 32 }
    ensures { Numbers (number_in index.old) (number_in index.new) first (under whole.now (paths (members_view decls.now))) result }
{
    let mut number = first;
    for decl in decls {
        index.add(joined(alloc, whole, decl.name())?, number)?;
        number = add_parts(alloc, index, whole, number + 1, decl)?;
    }
    Ok(number)
}

/// Adds the parts of a member, of which the first would have this number.
#[cycle(numbering)]
#[tactic(auto, using(crate::proofs::Views::views))]
fn add_parts(
    alloc: Global,
    index: &mut Index,
    whole: &[Id],
    first: u32,
    decl: &Decl,
) -> Result<u32, Memory>
    requires { first + count (member_view decl.now) ≤ 2 ^ 32 }
    ensures { let m = member_view decl.now in Numbers (number_in index.old) (number_in index.new) first (under (whole.now ++ name_of m ∷ []) (part_paths m)) result }
{
    match decl {
        Decl::Base(_) | Decl::Array(_) => Ok(first),
        Decl::Structure(name, parts) => {
            let path = joined(alloc, whole, name)?;
            add_level(alloc, index, &path, first, parts.items())
        }
        Decl::Grid(name, array, maps) => {
            let path = joined(alloc, whole, name)?;
            index.add(joined(alloc, &path, &array.name)?, first)?;
            add_arrays(alloc, index, &path, first + 1, maps.items())
        }
        Decl::Sequence(name, columns) => {
            let path = joined(alloc, whole, name)?;
            add_columns(alloc, index, &path, first, columns.items())
        }
    }
}

fn add_arrays(
    alloc: Global,
    index: &mut Index,
    whole: &[Id],
    first: u32,
    arrays: &[ArrayDecl],
) -> Result<u32, Memory>
    requires { first + length arrays.now < 2 ^ 32 }
    ensures { Numbers (number_in index.old) (number_in index.new) first (under whole.now (map (λ a. a.name ∷ []) arrays.now)) result }
{
    let mut number = first;
    for array in arrays {
        index.add(joined(alloc, whole, &array.name)?, number)?;
        number += 1;
    }
    Ok(number)
}

fn add_columns(
    alloc: Global,
    index: &mut Index,
    whole: &[Id],
    first: u32,
    columns: &[Column],
) -> Result<u32, Memory>
    requires { first + length columns.now < 2 ^ 32 }
    ensures { Numbers (number_in index.old) (number_in index.new) first (under whole.now (map (λ c. c.name ∷ []) columns.now)) result }
{
    let mut number = first;
    for column in columns {
        index.add(joined(alloc, whole, &column.name)?, number)?;
        number += 1;
    }
    Ok(number)
}
