//! The length of a DDS, added up without printing it. Each function is given how many bytes are left
//! of a limit, and gives how many are left behind a text, or none where the text has more.

ghost use Rattle.std.specs.Prelude.{◌≡◌, ◌+◌, ◌*◌, ◌<◌, ◌≤◌, MatchOption, length};
ghost use Rattle.std.specs.Fmt.{decimal};
ghost use Rattle.std.specs.List.{flat_map};
ghost use Rattle.dap_types.specs.View.{dataset_view, member_view, members_view};
ghost use Rattle.dap_model.specs.Dds.{array_text, closing, column_text, dds, dim_text, line, member_text, members_text};
ghost use Rattle.dds_text.specs.Length.{IsLeftBehind};

use dap_types::{ArrayDecl, Column, Dataset, Decl, Dim, Id};
use text_lines::type_word;

/// What is left behind so many bytes.
fn behind(left: u32, bytes: usize) -> Option<u32>
    ensures { MatchOption result (left < bytes) (λ rest. left ≡ rest + bytes) }
{
    if bytes > left as usize {
        return None;
    }
    Some(left - bytes as u32)
}

/// The number of decimal digits of a number.
fn digits(number: u32) -> usize
    ensures { result ≡ length (decimal number) }
{
    let mut buffer = itoa::Buffer::new();
    buffer.format(number).len()
}

#[tactic(auto, using(crate::proofs::Measured::lengths))]
fn behind_line(left: u32, spaces: usize, text: &[u8]) -> Option<u32>
    ensures { IsLeftBehind left (line spaces text.now) result }
{
    behind(behind(left, spaces)?, text.len())?.checked_sub(1)
}

#[tactic(auto, using(crate::proofs::Measured::lengths))]
fn behind_closing(left: u32, depth: u32, name: &Id) -> Option<u32>
    ensures { IsLeftBehind left (closing depth name.now) result }
{
    let left = behind(left, 4 * depth as usize)?;
    behind(left, name.bytes().len())?.checked_sub(4)
}

fn behind_dim(left: u32, dim: &Dim) -> Option<u32>
    ensures { IsLeftBehind left (dim_text dim.now) result }
{
    let left = match &dim.name {
        Some(name) => behind(left, name.bytes().len())?.checked_sub(3)?,
        None => left,
    };
    behind(left, digits(dim.size))?.checked_sub(2)
}

fn behind_dims(left: u32, dims: &[Dim]) -> Option<u32>
    ensures { IsLeftBehind left (flat_map dim_text dims.now) result }
{
    let mut left = left;
    for dim in dims {
        left = behind_dim(left, dim)?;
    }
    Some(left)
}

#[tactic(auto, using(crate::proofs::Measured::lengths))]
fn behind_column(left: u32, depth: u32, column: &Column) -> Option<u32>
    ensures { IsLeftBehind left (column_text depth column.now) result }
{
    let left = behind(left, 4 * depth as usize)?;
    let left = behind(left, type_word(column.base).len())?;
    behind(left, column.name.bytes().len())?.checked_sub(3)
}

fn behind_columns(left: u32, depth: u32, columns: &[Column]) -> Option<u32>
    ensures { IsLeftBehind left (flat_map (column_text depth) columns.now) result }
{
    let mut left = left;
    for column in columns {
        left = behind_column(left, depth, column)?;
    }
    Some(left)
}

#[tactic(auto, using(crate::proofs::Measured::lengths))]
fn behind_array(left: u32, depth: u32, array: &ArrayDecl) -> Option<u32>
    ensures { IsLeftBehind left (array_text depth array.now) result }
{
    let left = behind(left, 4 * depth as usize)?;
    let left = behind(left, type_word(array.base).len())?;
    let left = behind(left, array.name.bytes().len())?;
    behind_dims(left, array.dims.items())?.checked_sub(3)
}

fn behind_arrays(left: u32, depth: u32, arrays: &[ArrayDecl]) -> Option<u32>
    ensures { IsLeftBehind left (flat_map (array_text depth) arrays.now) result }
{
    let mut left = left;
    for array in arrays {
        left = behind_array(left, depth, array)?;
    }
    Some(left)
}

#[cycle(measuring)]
#[tactic(auto, using(crate::proofs::Measured::lengths, dap_types::proofs::Views::views, dap_types::proofs::Views::walks))]
fn behind_members(left: u32, depth: u32, decls: &[Decl]) -> Option<u32>
    ensures { IsLeftBehind left (members_text depth (members_view decls.now)) result }
{
    let mut left = left;
    for decl in decls {
        left = behind_member(left, depth, decl)?;
    }
    Some(left)
}

#[cycle(measuring)]
#[tactic(auto, using(crate::proofs::Measured::lengths, dap_types::proofs::Views::views, dap_types::proofs::Views::walks))]
fn behind_member(left: u32, depth: u32, decl: &Decl) -> Option<u32>
    ensures { IsLeftBehind left (member_text depth (member_view decl.now)) result }
{
    let spaces = 4 * depth as usize;
    match decl {
        Decl::Base(column) => behind_column(left, depth, column),
        Decl::Array(array) => behind_array(left, depth, array),
        Decl::Structure(name, parts) => {
            let left = behind_line(left, spaces, b"Structure {")?;
            let left = behind_members(left, depth + 1, parts.items())?;
            behind_closing(left, depth, name)
        }
        Decl::Grid(name, array, maps) => {
            let left = behind_line(left, spaces, b"Grid {")?;
            let left = behind_line(left, spaces + 2, b"Array:")?;
            let left = behind_array(left, depth + 1, array)?;
            let left = behind_line(left, spaces + 2, b"Maps:")?;
            let left = behind_arrays(left, depth + 1, maps.items())?;
            behind_closing(left, depth, name)
        }
        Decl::Sequence(name, columns) => {
            let left = behind_line(left, spaces, b"Sequence {")?;
            let left = behind_columns(left, depth + 1, columns.items())?;
            behind_closing(left, depth, name)
        }
    }
}

#[tactic(auto, using(crate::proofs::Measured::lengths), unfolding(dap_model::specs::Dds::dds))]
fn behind_dataset(left: u32, dataset: &Dataset) -> Option<u32>
    ensures { IsLeftBehind left (dds (dataset_view dataset.now)) result }
{
    let left = behind_line(left, 0, b"Dataset {")?;
    let left = behind_members(left, 1, dataset.members.items())?;
    behind_closing(left, 0, &dataset.name)
}

/// The number of bytes of the DDS of a dataset (DAP 2.0, Dataset Descriptor Structure, in this project's
/// layout). None exactly where it has more than `limit`. Takes no memory.
pub fn length_within(dataset: &Dataset, limit: u32) -> Option<u32>
    ensures { MatchOption result (limit < length (dds (dataset_view dataset.now))) (λ bytes. (bytes ≡ length (dds (dataset_view dataset.now))) × (bytes ≤ limit)) }
{
    let left = behind_dataset(limit, dataset)?;
    Some(limit - left)
}
