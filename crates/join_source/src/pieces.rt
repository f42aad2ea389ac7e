//! What is sent of joined files, out of their headers and the marks.

ghost use Rattle.std.specs.Prelude.{◌≡◌, ◌<◌, ◌≤◌, ◌+◌, ◌∷◌, ◌++◌, ◌==◌, if◌then◌else◌, ℕ, List, [], All, Err, IfOk, IsOk, IsTrue, MatchResult, None, OnOk, Some, length, map};
ghost use Rattle.dap_model.specs.Xdr.{bytes_of};
ghost use Rattle.grid_projection.specs.Resolved.{marks_in};
ghost use Rattle.hyperslab_plan.specs.Picked.{count_of};
ghost use Rattle.netcdf_source.specs.Layouts.{element_sizes};
ghost use Rattle.netcdf_source.specs.Mapping.{leaf_variable, leaves_from, records_of};
ghost use Rattle.netcdf_source.specs.declared.header.Variable.{Variable};
ghost use Rattle.dap_model.specs.Cutting.{AreWithin};
ghost use Rattle.dap_types.specs.declared.slabs.Slab.{Slab};
ghost use Rattle.xdr_encode.specs.Costs.{own_slabs};
ghost use Rattle.xdr_encode.specs.Counts.{first_large, slots_counts};
ghost use Rattle.xdr_encode.specs.Wanted.{AreSuited};
ghost use Rattle.join_source.specs.Asked.{JoinedAsk};
ghost use Rattle.join_source.specs.Begun.{HaveBegun};
ghost use Rattle.join_source.specs.Costs.{joined_cost};
ghost use Rattle.join_source.specs.Members.{CanJoin, HaveHeaders, contents_of, joined_contents, lengths_of};
ghost use Rattle.join_source.specs.Pieces.{IsInside, pieces_cost, pieces_xdr};
ghost use Rattle.join_source.specs.Sent.{slots_sent};
ghost use Rattle.join_source.specs.Trees.{joined_tree};
ghost use Rattle.join_source.specs.Wanted.{AreFirst, AreOverOwn, AreOverRecords, AreRecords, IsFound, IsLarge};
ghost use Rattle.join_source.specs.declared.piece.Piece.{Piece};

use crate::cutting::{behind, front_of};
use crate::piece::Piece;
use crate::plans::{plan_of, record_plan, with_first};
use crate::texts::{before_scalar, counts, filler};
use dap_types::{BaseType, Layout, List, Memory, Slab, limits};
use grid_projection::Marks;
use netcdf_source::Header;
use std::alloc::Global;
use xdr_encode::{BodyRefusal, count_within};

/// The most elements of a leaf.
const MOST: u64 = limits::MOST_ELEMENTS;

/// The elements of leaf `number` of those that are sent, where they are few enough. Nothing else is a reason to
/// refuse it.
fn check_count(slabs: &[Slab], number: u32) -> Result<u32, BodyRefusal>
    ensures { MatchResult result (λ count. (count ≡ count_of slabs.now) × (count ≤ 2147483647)) (λ refusal. (refusal ≡ BodyRefusal.TooLarge number) × (2147483647 < count_of slabs.now)) }
{
    let count = count_within(slabs);
    if count > MOST {
        return Err(BodyRefusal::TooLarge { leaf: number });
    }
    Ok(count as u32)
}

/// Puts the pieces of a record variable: its counts, the records of each file that are picked of it, and its filler.
fn push_records(
    alloc: Global,
    pieces: &mut List<Piece>,
    headers: &[Header],
    leaf: u32,
    base: BaseType,
    slabs: &[Slab],
    count: u32,
) -> Result<(), Memory>
    requires ready { (first : Slab) × (rest : List Slab) × (slabs.now ≡ first ∷ rest) × AreOverOwn headers.now leaf first rest }
    requires count { count ≡ count_of slabs.now }
    requires many { length headers.now ≤ 64 }
    ensures pushed { OnOk result ((own : List Piece) × (pieces.new ≡ pieces.old ++ own) × AreOverRecords headers.now leaf base slabs.now own) }
{
    pieces.push(Piece::Text(counts(alloc, base, count)?))?;
    push_each(alloc, pieces, headers, leaf, slabs)?;
    pieces.push(Piece::Text(filler(alloc, base, count)?))
}

/// The records of a file.
fn records_of(header: &Header) -> u32
    requires has { records_of header.now.contents ≡ Some header.now.contents.records }
    requires few { header.now.contents.records ≤ 2147483647 }
    ensures { result ≡ header.now.contents.records }
{
    header.records().unwrap_or(0) as u32
}

/// Puts the elements that are picked of a record variable in each file.
fn push_each(
    alloc: Global,
    pieces: &mut List<Piece>,
    headers: &[Header],
    leaf: u32,
    slabs: &[Slab],
) -> Result<(), Memory>
    requires ready { (first : Slab) × (rest : List Slab) × (slabs.now ≡ first ∷ rest) × AreOverOwn headers.now leaf first rest }
    requires many { length headers.now ≤ 64 }
    ensures pushed { OnOk result ((own : List Piece) × (first : Slab) × (rest : List Slab) × (slabs.now ≡ first ∷ rest) × (pieces.new ≡ pieces.old ++ own) × AreRecords 0 headers.now leaf first rest own) }
{
    let mut left = slabs[0];
    for (k, header) in headers.iter().enumerate() {
        let records = records_of(header);
        let own = with_first(alloc, front_of(&left, records), slabs)?;
        let plan = record_plan(alloc, header, leaf, own.items())?;
        pieces.push(Piece::Elements {
            member: k as u32,
            plan,
        })?;
        left = behind(&left, records);
    }
    Ok(())
}

/// Puts the pieces of a variable without records, which the first file has: its counts, its elements and its filler;
/// or those of a scalar.
fn push_whole(
    alloc: Global,
    pieces: &mut List<Piece>,
    header: &Header,
    leaf: u32,
    base: BaseType,
    slabs: &[Slab],
    count: u32,
) -> Result<(), Memory>
    requires leaf { (v : Variable) × (leaf_variable header.now.contents leaf ≡ Some v) × AreWithin slabs.now (element_sizes header.now.contents v) }
    requires few { count_of slabs.now ≤ 2147483647 }
    requires count { count ≡ count_of slabs.now }
    ensures pushed { OnOk result ((own : List Piece) × (pieces.new ≡ pieces.old ++ own) × AreFirst header.now leaf base slabs.now own) }
{
    let plan = plan_of(alloc, header, leaf, slabs)?;
    if slabs.is_empty() {
        pieces.push(Piece::Text(before_scalar(alloc, base)?))?;
        return pieces.push(Piece::Elements { member: 0, plan });
    }
    pieces.push(Piece::Text(counts(alloc, base, count)?))?;
    pieces.push(Piece::Elements { member: 0, plan })?;
    pieces.push(Piece::Text(filler(alloc, base, count)?))
}

/// The hyperslabs of a leaf with that layout. A scalar has none.
fn cut_slabs<'a>(layout: &Layout, slabs: &'a [Slab]) -> &'a [Slab]
    ensures { result.now ≡ (if length layout.now.steps == 0 then [] else slabs.now) }
{
    if layout.steps.items().is_empty() {
        &slabs[..0]
    } else {
        slabs
    }
}

/// The hyperslabs of a leaf.
fn own_slabs<'a>(header: &Header, leaf: u32, slabs: &'a [Slab]) -> &'a [Slab]
    ensures { (v : Variable) → leaf_variable header.now.contents leaf ≡ Some v → result.now ≡ own_slabs header.now.contents v slabs.now }
{
    match header.layout(leaf) {
        Some(layout) => cut_slabs(layout, slabs),
        None => slabs,
    }
}

/// Puts the pieces of the member with this number, where it is a marked leaf, which is the leaf `number` of those
/// that are sent. Says whether it is one.
fn push_leaf(
    alloc: Global,
    pieces: &mut List<Piece>,
    headers: &[Header],
    marks: &Marks,
    member: u32,
    number: u32,
) -> Result<bool, BodyRefusal>
    requires some { 1 ≤ length headers.now }
    requires many { length headers.now ≤ 64 }
    requires can_join { CanJoin (contents_of headers.now) }
    requires suited { AreSuited (joined_contents (contents_of headers.now)) (marks_in marks.now) }
    ensures found { IfOk result (λ found. (own : List Piece) × (pieces.new ≡ pieces.old ++ own) × IsFound headers.now (marks_in marks.now) member found own) }
    ensures refused { (leaf : ℕ) → result ≡ Err (BodyRefusal.TooLarge leaf) → (leaf ≡ number) × IsLarge (contents_of headers.now) (marks_in marks.now) member }
{
    let first = &headers[0];
    let Some(slabs) = marks.slabs(member) else {
        return Ok(false);
    };
    let Some(base) = first.base(member) else {
        return Ok(false);
    };
    let slabs = own_slabs(first, member, slabs);
    let count = match check_count(slabs, number) {
        Ok(count) => count,
        Err(refusal) => return Err(refusal),
    };
    if first.is_record(member) {
        push_records(alloc, pieces, headers, member, base, slabs, count)?;
    } else {
        push_whole(alloc, pieces, first, member, base, slabs, count)?;
    }
    Ok(true)
}

/// What is sent of joined files, their marked leaves in order.
pub fn marked_pieces(
    alloc: Global,
    headers: &[Header],
    marks: &Marks,
) -> Result<List<Piece>, BodyRefusal>
    requires some { 1 ≤ length headers.now }
    requires many { length headers.now ≤ 64 }
    requires can_join { CanJoin (contents_of headers.now) }
    requires suited { AreSuited (joined_contents (contents_of headers.now)) (marks_in marks.now) }
    ensures text { IfOk result (λ pieces. (files : List (List ℕ)) → HaveHeaders (contents_of headers.now) files →
        pieces_xdr pieces files ≡ bytes_of (slots_sent (joined_contents (contents_of headers.now)) (joined_tree (contents_of headers.now) files) (marks_in marks.now) 1 (leaves_from (joined_contents (contents_of headers.now)) 0 (joined_contents (contents_of headers.now)).variables))) }
    ensures inside { IfOk result (λ pieces. All (IsInside (lengths_of headers.now)) pieces) }
    ensures cost { IfOk result (λ pieces. pieces_cost pieces ≤ joined_cost (contents_of headers.now) (marks_in marks.now)) }
    ensures asks { IfOk result (λ pieces. (files : List (List ℕ)) → HaveHeaders (contents_of headers.now) files → (at put asked : ℕ) → HaveBegun pieces files at put asked → JoinedAsk (contents_of headers.now) (marks_in marks.now) files at put asked) }
    ensures ok { IsOk result → first_large 1 (slots_counts (joined_contents (contents_of headers.now)) (marks_in marks.now) 1 (leaves_from (joined_contents (contents_of headers.now)) 0 (joined_contents (contents_of headers.now)).variables)) ≡ None }
    ensures refused { (leaf : ℕ) → result ≡ Err (BodyRefusal.TooLarge leaf) → first_large 1 (slots_counts (joined_contents (contents_of headers.now)) (marks_in marks.now) 1 (leaves_from (joined_contents (contents_of headers.now)) 0 (joined_contents (contents_of headers.now)).variables)) ≡ Some leaf }
{
    let mut pieces = List::new(alloc);
    let mut sent: u32 = 0;
    for k in 0..headers[0].members() {
        let found = match push_leaf(alloc, &mut pieces, headers, marks, k + 1, sent + 1) {
            Ok(found) => found,
            Err(refusal) => return Err(refusal),
        };
        sent += u32::from(found);
    }
    Ok(pieces)
}
