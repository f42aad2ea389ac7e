//! Bodies, out of a header or a table and the marks of a constraint.

ghost use Rattle.std.specs.Prelude.{◌≡◌, ◌<◌, ◌≤◌, ◌++◌, ◌^◌, ℕ, List, [], All, codes, length, map, Bool, Err, IfOk, IsOk, MatchResult, None, Option, Some, is_some, vec_len};
ghost use Rattle.std.specs.List.{list_any, range_with_len};
ghost use Rattle.dap_types.specs.Limits.{most_piece, most_text};
ghost use Rattle.csv_source.specs.Dataset.{table_dataset, table_trees};
ghost use Rattle.dap_model.specs.Body.{body, too_large};
ghost use Rattle.dap_model.specs.Dds.{dds};
ghost use Rattle.dap_model.specs.Filter.{Keeps, SuitsAll, constrained, constrained_trees, one_marked};
ghost use Rattle.dap_types.specs.View.{dataset_view};
ghost use Rattle.dap_types.specs.WellFormed.{IsWellFormed};
ghost use Rattle.grid_projection.specs.Resolved.{marks_in};
ghost use Rattle.netcdf_source.specs.Laws.{HasHeader};
ghost use Rattle.netcdf_source.specs.Mapping.{dataset_of, leaves_from};
ghost use Rattle.netcdf_source.specs.Values.{file_trees};
ghost use Rattle.xdr_encode.specs.Asked.{MarksAsk};
ghost use Rattle.xdr_encode.specs.Bodies.{FitsFile, HasNoFile, MayAsk, cost_in, dds_in, text_in};
ghost use Rattle.xdr_encode.specs.Costs.{marks_cost};
ghost use Rattle.xdr_encode.specs.Masks.{all_rows, kept_table};
ghost use Rattle.xdr_encode.specs.Rows.{marked_columns, rows_text, table_sent};
ghost use Rattle.xdr_encode.specs.Wanted.{AreSuited};

use crate::body::Body;
use crate::kept::Rows;
use crate::leaf::Leaf;
use crate::refusal::BodyRefusal;
use crate::wanted::marked_leaves;
use csv_source::Table;
use dap_types::{Bytes, Dataset, List, Memory, limits};
use dds_text::{PrintRefusal, print_short};
use grid_projection::Marks;
use netcdf_source::Header;
use std::alloc::Global;

/// The bytes of a batch.
const ROOM: usize = limits::MOST_PIECE;

/// The DDS of what the marks leave of a dataset. `TooLarge` comes exactly where it has more than
/// 16,777,216 bytes, and nothing of it is printed then.
pub fn left_dds(alloc: Global, dataset: &Dataset, marks: &Marks) -> Result<Bytes, BodyRefusal>
    requires { IsWellFormed (dataset_view dataset.now) }
    ensures text { IfOk result (λ text. text ≡ dds (constrained (marks_in marks.now) (dataset_view dataset.now))) }
    ensures short { IfOk result (λ text. length text ≤ most_text) }
    ensures refused { (leaf : ℕ) → result ≡ Err (BodyRefusal.TooLarge leaf) → (leaf ≡ 0) × (most_text < length (dds (constrained (marks_in marks.now) (dataset_view dataset.now)))) }
{
    let left = marks.constrained(alloc, dataset)?;
    match print_short(alloc, &left) {
        Ok(text) => Ok(text),
        Err(PrintRefusal::TooLong) => Err(BodyRefusal::TooLarge { leaf: 0 }),
        Err(PrintRefusal::Memory) => Err(BodyRefusal::Memory),
    }
}

/// The DDS and the line `Data:`.
pub fn head_of(alloc: Global, text: &[u8]) -> Result<Bytes, Memory>
    ensures { IfOk result (λ head. head ≡ text.now ++ codes "Data:\n") }
{
    let mut head = Vec::with_capacity(alloc, text.len().saturating_add(6))?;
    head.extend_from_slice(text)?;
    head.extend_from_slice(b"Data:\n")?;
    Ok(Bytes::from_vec(head))
}

/// A room of 65,536 bytes.
pub fn room(alloc: Global) -> Result<Vec<u8>, Memory>
    ensures { IfOk result (λ room. vec_len room ≡ most_piece) }
{
    Ok(vec![in alloc; 0u8; ROOM]?)
}

/// Whether each column of a table is marked.
fn column_marks(alloc: Global, marks: &Marks, count: u32) -> Result<List<bool>, Memory>
    requires { count < 2 ^ 31 }
    ensures marked { IfOk result (λ chosen. chosen ≡ marked_columns (marks_in marks.now) count) }
    ensures long { IfOk result (λ chosen. length chosen ≡ count) }
{
    let mut chosen = List::new(alloc);
    for column in 0..count {
        chosen.push(is_marked(marks, column + 2))?;
    }
    Ok(chosen)
}

fn is_marked(marks: &Marks, leaf: u32) -> bool
    ensures { result ≡ is_some (marks_in marks.now leaf) }
{
    match marks.slabs(leaf) {
        Some(_) => true,
        None => false,
    }
}

fn any(flags: &[bool]) -> bool
    ensures { result ≡ list_any (λ flag. flag) flags.now }
{
    for flag in flags {
        if *flag {
            return true;
        }
    }
    false
}

/// What is sent of a table, nothing where no column of it is marked.
fn rows_of(
    alloc: Global,
    table: Table,
    mask: List<bool>,
    marks: &Marks,
) -> Result<Option<Rows>, Memory>
    requires mask { length mask ≡ length table.rows }
    requires few { length table.columns < 2 ^ 31 }
    ensures rows { IfOk result (λ rows. rows_text rows ≡ table_sent (marks_in marks.now) table mask) }
    ensures each_row { All (λ row. length row ≡ length table.columns) table.rows }
{
    let chosen = column_marks(alloc, marks, table.columns())?;
    if any(chosen.items()) {
        Ok(Some(Rows {
            table,
            mask,
            columns: chosen,
        }))
    } else {
        Ok(None)
    }
}

/// The body with that DDS, and its rooms.
fn body_of(
    alloc: Global,
    text: &[u8],
    rows: Option<Rows>,
    leaves: List<Leaf>,
) -> Result<Body, Memory>
    ensures head { IfOk result (λ b. b.head ≡ text.now ++ codes "Data:\n") }
    ensures dds { IfOk result (λ b. b.dds_len ≡ length text.now) }
    ensures rows { IfOk result (λ b. rows_text b.rows ≡ rows_text rows) }
    ensures leaves { IfOk result (λ b. b.leaves ≡ leaves) }
{
    let head = head_of(alloc, text)?;
    let raw = room(alloc)?;
    let sent = room(alloc)?;
    Ok(Body {
        head,
        dds_len: text.len(),
        rows,
        leaves,
        raw,
        sent,
    })
}

impl Body {
    /// The body of the data response for what the marks leave of a netCDF file. Condition: the dataset
    /// is that of the header, and the marks were made for it.
    #[tactic(auto, unfolding(crate::specs::Bodies::dds_in, crate::specs::Bodies::cost_in, crate::specs::Bodies::FitsFile))]
    pub fn of_cdf(
        alloc: Global,
        header: &Header,
        dataset: &Dataset,
        marks: &Marks,
    ) -> Result<Body, BodyRefusal>
        requires dataset { (file_name : List ℕ) × (dataset_view dataset.now ≡ dataset_of header.now.contents file_name) }
        requires well_formed { IsWellFormed (dataset_view dataset.now) }
        requires suits { SuitsAll (marks_in marks.now) 1 (dataset_view dataset.now).members }
        // Whatever the file is whose header it is, this is its body, which has no rows to keep,
        ensures text { IfOk result (λ b. (file : List ℕ) (keeps : Keeps) → HasHeader header.now.contents file →
            text_in b file ≡ body (constrained (marks_in marks.now) (dataset_view dataset.now)) (constrained_trees (marks_in marks.now) keeps (dataset_view dataset.now) (file_trees header.now.contents file))) }
        ensures dds { IfOk result (λ b. dds_in b ≡ dds (constrained (marks_in marks.now) (dataset_view dataset.now))) }
        // it reads within it,
        ensures fits { IfOk result (λ b. FitsFile b header.now.length) }
        // and at most the cost of the marks, of which it asks no more before it puts what stands before.
        ensures asks { IfOk result (λ b. (file : List ℕ) → HasHeader header.now.contents file → (put asked : ℕ) → MayAsk b file put asked →
            MarksAsk header.now.contents (marks_in marks.now) file (length (dds (constrained (marks_in marks.now) (dataset_view dataset.now)) ++ codes "Data:\n")) put asked) }
        ensures cost { IfOk result (λ b. cost_in b ≤ marks_cost header.now.contents (marks_in marks.now)) }
        // What is too large is refused, and nothing else.
        ensures only_small { IsOk result → too_large (constrained (marks_in marks.now) (dataset_view dataset.now)) ≡ None }
        ensures refused { (leaf : ℕ) → result ≡ Err (BodyRefusal.TooLarge leaf) → too_large (constrained (marks_in marks.now) (dataset_view dataset.now)) ≡ Some leaf }
    {
        let text = match left_dds(alloc, dataset, marks) {
            Ok(text) => text,
            Err(refusal) => return Err(refusal),
        };
        let leaves = match marked_leaves(alloc, header, marks) {
            Ok(leaves) => leaves,
            Err(refusal) => return Err(refusal),
        };
        match body_of(alloc, text.bytes(), None, leaves) {
            Ok(body) => Ok(body),
            Err(Memory) => Err(BodyRefusal::Memory),
        }
    }

    /// The body of the data response for what a mask and the marks leave of a table. Condition: the
    /// dataset is that of the table, the marks were made for it, and the mask has a value for each row.
    #[tactic(auto, unfolding(crate::specs::Bodies::dds_in, crate::specs::Bodies::cost_in, crate::specs::Bodies::FitsFile, crate::specs::Bodies::HasNoFile))]
    pub fn of_table(
        alloc: Global,
        table: Table,
        mask: List<bool>,
        dataset: &Dataset,
        marks: &Marks,
    ) -> Result<Body, BodyRefusal>
        requires dataset { dataset_view dataset.now ≡ table_dataset table }
        requires well_formed { IsWellFormed (dataset_view dataset.now) }
        requires mask { length mask ≡ length table.rows }
        ensures text { IfOk result (λ b. (file : List ℕ) →
            text_in b file ≡ body (constrained (marks_in marks.now) (table_dataset table)) (constrained_trees (marks_in marks.now) all_rows (table_dataset table) (table_trees (kept_table mask table)))) }
        ensures dds { IfOk result (λ b. dds_in b ≡ dds (constrained (marks_in marks.now) (dataset_view dataset.now))) }
        ensures fits { IfOk result (λ b. (file_len : ℕ) → FitsFile b file_len) }
        ensures no_file { IfOk result HasNoFile }
        ensures cost { IfOk result (λ b. cost_in b ≡ 0) }
        ensures only_small { IsOk result → too_large (constrained (marks_in marks.now) (dataset_view dataset.now)) ≡ None }
        ensures refused { (leaf : ℕ) → result ≡ Err (BodyRefusal.TooLarge leaf) → too_large (constrained (marks_in marks.now) (dataset_view dataset.now)) ≡ Some leaf }
    {
        let text = match left_dds(alloc, dataset, marks) {
            Ok(text) => text,
            Err(refusal) => return Err(refusal),
        };
        let rows = match rows_of(alloc, table, mask, marks) {
            Ok(rows) => rows,
            Err(Memory) => return Err(BodyRefusal::Memory),
        };
        match body_of(alloc, text.bytes(), rows, List::new(alloc)) {
            Ok(body) => Ok(body),
            Err(Memory) => Err(BodyRefusal::Memory),
        }
    }
}
