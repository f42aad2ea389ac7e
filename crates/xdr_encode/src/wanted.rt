//! The marked leaves of a netCDF file, out of its header and the marks.

ghost use Rattle.std.specs.Prelude.{◌≡◌, ◌<◌, ◌≤◌, ◌++◌, ◌==◌, ℕ, List, [], All, Err, IfOk, IsOk, MatchOption, MatchResult, None, OnOk, Some, if◌then◌else◌, length, min};
ghost use Rattle.std.specs.Option.{option_to_list};
ghost use Rattle.grid_projection.specs.Resolved.{marks_in};
ghost use Rattle.hyperslab_plan.specs.Picked.{count_of};
ghost use Rattle.dap_model.specs.Xdr.{bytes_of};
ghost use Rattle.netcdf_source.specs.Laws.{HasHeader};
ghost use Rattle.netcdf_source.specs.Mapping.{leaves_from};
ghost use Rattle.xdr_encode.specs.Asked.{MarksAsk};
ghost use Rattle.xdr_encode.specs.Begun.{HaveBegun};
ghost use Rattle.xdr_encode.specs.CdfSent.{slots_sent};
ghost use Rattle.xdr_encode.specs.Costs.{marks_cost};
ghost use Rattle.xdr_encode.specs.Counts.{first_large, slots_counts};
ghost use Rattle.xdr_encode.specs.Sent.{IsInside, leaves_cost, leaves_xdr};
ghost use Rattle.xdr_encode.specs.Wanted.{AreSuited, IsFound, IsLarge, IsUnmarked, IsWanted};

use crate::leaf::Leaf;
use crate::plans::leaf_of;
use crate::refusal::BodyRefusal;
use dap_types::{BaseType, Layout, List, Memory, Slab, limits};
use grid_projection::Marks;
use netcdf_source::Header;
use std::alloc::Global;

/// The most elements of a leaf.
const MOST: u64 = limits::MOST_ELEMENTS;

/// What is asked of a marked leaf.
#[derive(Clone, Copy)]
struct Asked<'a> {
    layout: &'a Layout,
    base: BaseType,
    slabs: &'a [Slab],
}

/// The hyperslabs of a leaf. A scalar has none.
fn own_slabs<'a>(layout: &Layout, slabs: &'a [Slab]) -> &'a [Slab]
    ensures { result.now ≡ (if length layout.now.steps == 0 then [] else slabs.now) }
{
    if layout.steps.items().is_empty() {
        &slabs[..0]
    } else {
        slabs
    }
}

/// What is asked of the member with this number, where it is a marked leaf.
fn wanted<'a>(header: &'a Header, marks: &'a Marks, member: u32) -> Option<Asked<'a>>
    ensures { MatchOption result (IsUnmarked header.now.contents (marks_in marks.now) member)
        (λ w. IsWanted header.now.contents header.now.length (marks_in marks.now) member w.layout.now w.base w.slabs.now) }
{
    let Some(slabs) = marks.slabs(member) else {
        return None;
    };
    let Some(layout) = header.layout(member) else {
        return None;
    };
    let Some(base) = header.base(member) else {
        return None;
    };
    let slabs = own_slabs(layout, slabs);
    Some(Asked {
        layout,
        base,
        slabs,
    })
}

/// How many elements hyperslabs pick, or one more than a leaf may have (DAP 2.0, arrays).
pub fn count_within(slabs: &[Slab]) -> u64
    ensures { result ≡ min (count_of slabs.now) 2147483648 }
{
    let mut total: u64 = 1;
    for slab in slabs {
        total = (total * u64::from(slab.count)).min(MOST + 1);
    }
    total
}

/// Whether leaf `number` of those that are sent has few enough elements. Nothing else is a reason to
/// refuse it.
fn check_count(slabs: &[Slab], number: u32) -> Result<(), BodyRefusal>
    ensures { MatchResult result (λ _. count_of slabs.now ≤ 2147483647) (λ refusal. (refusal ≡ BodyRefusal.TooLarge number) × (2147483647 < count_of slabs.now)) }
{
    if count_within(slabs) > MOST {
        return Err(BodyRefusal::TooLarge { leaf: number });
    }
    Ok(())
}

/// What is sent of the member with this number, which is the leaf `number` of those that are sent, if
/// it is one.
fn leaf_at(
    alloc: Global,
    header: &Header,
    marks: &Marks,
    member: u32,
    number: u32,
) -> Result<Option<Leaf>, BodyRefusal>
    requires { AreSuited header.now.contents (marks_in marks.now) }
    ensures found { IfOk result (λ found. IsFound header.now.contents header.now.length (marks_in marks.now) member found) }
    ensures refused { (leaf : ℕ) → result ≡ Err (BodyRefusal.TooLarge leaf) → (leaf ≡ number) × IsLarge header.now.contents (marks_in marks.now) member }
{
    let Some(wanted) = wanted(header, marks, member) else {
        return Ok(None);
    };
    match check_count(wanted.slabs, number) {
        Ok(()) => {}
        Err(refusal) => return Err(refusal),
    }
    let leaf = leaf_of(alloc, wanted.layout, wanted.base, wanted.slabs)?;
    Ok(Some(leaf))
}

fn push_found(leaves: &mut List<Leaf>, found: Option<Leaf>) -> Result<(), Memory>
    ensures { OnOk result (leaves.new ≡ leaves.old ++ option_to_list found) }
{
    if let Some(leaf) = found {
        leaves.push(leaf)?;
    }
    Ok(())
}

/// What is sent of a file, its marked leaves in order.
pub fn marked_leaves(
    alloc: Global,
    header: &Header,
    marks: &Marks,
) -> Result<List<Leaf>, BodyRefusal>
    requires { AreSuited header.now.contents (marks_in marks.now) }
    ensures text { IfOk result (λ leaves. (file : List ℕ) → HasHeader header.now.contents file → leaves_xdr leaves file ≡ bytes_of (slots_sent header.now.contents file (marks_in marks.now) 1 (leaves_from header.now.contents 0 header.now.contents.variables))) }
    ensures inside { IfOk result (λ leaves. All (IsInside header.now.length) leaves) }
    ensures cost { IfOk result (λ leaves. leaves_cost leaves ≤ marks_cost header.now.contents (marks_in marks.now)) }
    ensures asks { IfOk result (λ leaves. (file : List ℕ) → HasHeader header.now.contents file → (at put asked : ℕ) → HaveBegun leaves file at put asked → MarksAsk header.now.contents (marks_in marks.now) file at put asked) }
    ensures ok { IsOk result → first_large 1 (slots_counts header.now.contents (marks_in marks.now) 1 (leaves_from header.now.contents 0 header.now.contents.variables)) ≡ None }
    ensures refused { (leaf : ℕ) → result ≡ Err (BodyRefusal.TooLarge leaf) → first_large 1 (slots_counts header.now.contents (marks_in marks.now) 1 (leaves_from header.now.contents 0 header.now.contents.variables)) ≡ Some leaf }
{
    let mut leaves = List::new(alloc);
    for k in 0..header.members() {
        let number = leaves.items().len() as u32 + 1;
        let found = match leaf_at(alloc, header, marks, k + 1, number) {
            Ok(found) => found,
            Err(refusal) => return Err(refusal),
        };
        push_found(&mut leaves, found)?;
    }
    Ok(leaves)
}
