ghost use Rattle.std.specs.Prelude.{◌≡◌, ◌<◌, ◌≤◌, ◌^◌, ◌++◌, Err, IfOk, MatchResult, OnOk, length};
ghost use Rattle.dap_types.specs.Limits.{most_text};
ghost use Rattle.dap_types.specs.View.{dataset_view, member_view, members_view};
ghost use Rattle.dap_model.specs.Dds.{dds, member_text, members_text};
ghost use Rattle.dds_text.specs.declared.refusal.PrintRefusal.TheVariants as PrintRefusal;

use crate::declarations::{put_array, put_arrays, put_column, put_columns};
use crate::front::LIMIT;
use crate::lines::put_closing;
use crate::measure::length_within;
use crate::refusal::PrintRefusal;
use dap_types::{Bytes, Dataset, Decl, Memory};
use std::alloc::Global;
use text_lines::put_line;

/// Nothing is printed at this depth: the text of a member there has more than 2^47 bytes, so memory
/// for it is wanted. The members of a well-formed dataset nest at most 16 deep.
const TOO_DEEP: u32 = 1 << 23;

/// Fails at that depth and below it, and nowhere else.
fn check_depth(depth: u32) -> Result<(), Memory>
    ensures { MatchResult result (λ _. depth < 2 ^ 23) (λ _. 2 ^ 23 ≤ depth) }
{
    if depth >= TOO_DEEP {
        return Err(Memory);
    }
    Ok(())
}

/// Appends the DDS of the dataset.
#[tactic(auto, unfolding(dap_model::specs::Dds::dds))]
fn put_dataset(out: &mut Vec<u8>, dataset: &Dataset) -> Result<(), Memory>
    ensures { OnOk result (out.new.items ≡ out.old.items ++ dds (dataset_view dataset.now)) }
{
    put_line(out, 0, b"Dataset {")?;
    put_members(out, 1, dataset.members.items())?;
    put_closing(out, 0, &dataset.name)
}

/// The DDS of the dataset (DAP 2.0, Dataset Descriptor Structure, in this project's layout). Fails
/// where memory is wanted.
pub fn print(alloc: Global, dataset: &Dataset) -> Result<Bytes, Memory>
    ensures text { IfOk result (λ text. text ≡ dds (dataset_view dataset.now)) }
{
    let mut out = Vec::new(alloc);
    put_dataset(&mut out, dataset)?;
    Ok(Bytes::from_vec(out))
}

/// The DDS of the dataset, where a reader takes one of its length. `TooLong` comes exactly where it has
/// more than 16,777,216 bytes, and nothing of it is printed then; `Memory` comes where memory is wanted.
pub fn print_short(alloc: Global, dataset: &Dataset) -> Result<Bytes, PrintRefusal>
    ensures text { IfOk result (λ text. text ≡ dds (dataset_view dataset.now)) }
    ensures short { IfOk result (λ text. length text ≤ most_text) }
    ensures too_long { result ≡ Err PrintRefusal.TooLong → most_text < length (dds (dataset_view dataset.now)) }
{
    let Some(length) = length_within(dataset, LIMIT as u32) else {
        return Err(PrintRefusal::TooLong);
    };
    let mut out = Vec::with_capacity(alloc, length as usize)?;
    put_dataset(&mut out, dataset)?;
    Ok(Bytes::from_vec(out))
}

#[cycle(printing)]
#[tactic(auto, using(dap_types::proofs::Views::views, dap_types::proofs::Views::walks))]
fn put_members(out: &mut Vec<u8>, depth: u32, decls: &[Decl]) -> Result<(), Memory>
    ensures { OnOk result (out.new.items
        ≡ out.old.items ++ members_text depth (members_view decls.now)) }
{
    for decl in decls {
        put_member(out, depth, decl)?;
    }
    Ok(())
}

#[cycle(printing)]
#[tactic(auto, using(dap_types::proofs::Views::views, dap_types::proofs::Views::walks))]
fn put_member(out: &mut Vec<u8>, depth: u32, decl: &Decl) -> Result<(), Memory>
    ensures { OnOk result (out.new.items
        ≡ out.old.items ++ member_text depth (member_view decl.now)) }
{
    check_depth(depth)?;
    let spaces = 4 * depth;
    match decl {
        Decl::Base(column) => put_column(out, depth, column),
        Decl::Array(array) => put_array(out, depth, array),
        Decl::Structure(name, parts) => {
            put_line(out, spaces, b"Structure {")?;
            put_members(out, depth + 1, parts.items())?;
            put_closing(out, depth, name)?;
            Ok(())
        }
        Decl::Grid(name, array, maps) => {
            put_line(out, spaces, b"Grid {")?;
            put_line(out, spaces + 2, b"Array:")?;
            put_array(out, depth + 1, array)?;
            put_line(out, spaces + 2, b"Maps:")?;
            put_arrays(out, depth + 1, maps.items())?;
            put_closing(out, depth, name)?;
            Ok(())
        }
        Decl::Sequence(name, columns) => {
            put_line(out, spaces, b"Sequence {")?;
            put_columns(out, depth + 1, columns.items())?;
            put_closing(out, depth, name)?;
            Ok(())
        }
    }
}
