//! Declarations under the names of a constraint.

ghost use Rattle.std.specs.Prelude.{◌≡◌, map, IfOk};
ghost use Rattle.dap_types.specs.View.{dataset_view, member_view, members_view};
ghost use Rattle.saved_source.specs.Responses.{renamed, renamed_all, renamed_array, renamed_column, saved_dataset};

use dap_types::{ArrayDecl, Column, Dataset, Decl, Dim, Id, List, Memory};
use file_names::dataset_id;
use std::alloc::Global;

fn column(alloc: Global, column: &Column) -> Result<Column, Memory>
    ensures { IfOk result (λ c. c ≡ renamed_column column.now) }
{
    Ok(Column {
        name: Id::of_constraint(alloc, column.name.bytes())?,
        base: column.base,
    })
}

fn columns(alloc: Global, columns: &[Column]) -> Result<List<Column>, Memory>
    ensures { IfOk result (λ cs. cs ≡ map renamed_column columns.now) }
{
    let mut renamed = List::with_capacity(alloc, columns.len())?;
    for one in columns {
        renamed.push(column(alloc, one)?)?;
    }
    Ok(renamed)
}

fn name_again(name: &Option<Id>) -> Result<Option<Id>, Memory>
    ensures { IfOk result (λ o. o ≡ name.now) }
{
    match name {
        Some(id) => Ok(Some(id.try_clone()?)),
        None => Ok(None),
    }
}

/// The dimensions once more. Their names stay.
fn dims(alloc: Global, dims: &[Dim]) -> Result<List<Dim>, Memory>
    ensures { IfOk result (λ ds. ds ≡ dims.now) }
{
    let mut again = List::with_capacity(alloc, dims.len())?;
    for dim in dims {
        again.push(Dim {
            name: name_again(&dim.name)?,
            size: dim.size,
        })?;
    }
    Ok(again)
}

fn array(alloc: Global, array: &ArrayDecl) -> Result<ArrayDecl, Memory>
    ensures { IfOk result (λ a. a ≡ renamed_array array.now) }
{
    Ok(ArrayDecl {
        name: Id::of_constraint(alloc, array.name.bytes())?,
        base: array.base,
        dims: dims(alloc, array.dims.items())?,
    })
}

fn arrays(alloc: Global, arrays: &[ArrayDecl]) -> Result<List<ArrayDecl>, Memory>
    ensures { IfOk result (λ l. l ≡ map renamed_array arrays.now) }
{
    let mut renamed = List::with_capacity(alloc, arrays.len())?;
    for one in arrays {
        renamed.push(array(alloc, one)?)?;
    }
    Ok(renamed)
}

/// A variable, with its parts.
#[cycle(renaming)]
#[tactic(auto, using(dap_types::proofs::Views::views))]
fn member(alloc: Global, decl: &Decl) -> Result<Decl, Memory>
    ensures { IfOk result (λ d. member_view d ≡ renamed (member_view decl.now)) }
{
    match decl {
        Decl::Base(scalar) => Ok(Decl::Base(column(alloc, scalar)?)),
        Decl::Array(decl) => Ok(Decl::Array(array(alloc, decl)?)),
        Decl::Structure(name, parts) => {
            let name = Id::of_constraint(alloc, name.bytes())?;
            Ok(Decl::Structure(name, members(alloc, parts.items())?))
        }
        Decl::Grid(name, own, maps) => {
            let name = Id::of_constraint(alloc, name.bytes())?;
            let own = array(alloc, own)?;
            Ok(Decl::Grid(name, own, arrays(alloc, maps.items())?))
        }
        Decl::Sequence(name, row) => {
            let name = Id::of_constraint(alloc, name.bytes())?;
            Ok(Decl::Sequence(name, columns(alloc, row.items())?))
        }
    }
}

/// Some variables, with their parts.
#[cycle(renaming)]
fn members(alloc: Global, decls: &[Decl]) -> Result<List<Decl>, Memory>
    ensures { IfOk result (λ l. members_view l ≡ renamed_all (members_view decls.now)) }
{
    let mut renamed = List::with_capacity(alloc, decls.len())?;
    for decl in decls {
        renamed.push(member(alloc, decl)?)?;
    }
    Ok(renamed)
}

/// The dataset that a file is served as whose response is of this dataset.
pub fn saved_dataset(alloc: Global, file_name: &[u8], response: &Dataset) -> Result<Dataset, Memory>
    ensures { IfOk result (λ d. dataset_view d ≡ saved_dataset file_name.now (dataset_view response.now)) }
{
    Ok(Dataset {
        name: dataset_id(alloc, file_name)?,
        members: members(alloc, response.members.items())?,
    })
}
