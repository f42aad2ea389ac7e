//! The body of the data response for what a query leaves of a stored file.

ghost use Rattle.std.specs.Prelude.{◌≡◌, ◌≤◌, ◌<◌, ℕ, List, All, map, IfOk, IfErr, IsTrue, Ok, Err, None, Some, length};
ghost use Rattle.constraint_parse.specs.Values.{Spells};
ghost use Rattle.constraint_parse.specs.declared.constraint.Constraint.{Constraint};
ghost use Rattle.csv_source.specs.Dataset.{row_tree, table_dataset};
ghost use Rattle.dap_model.specs.Rows.{kept};
ghost use Rattle.dap_types.specs.Numbered.{number_in};
ghost use Rattle.dap_types.specs.Model.{Tree};
ghost use Rattle.dap_types.specs.View.{dataset_view};
ghost use Rattle.dap_types.specs.WellFormed.{number_of};
ghost use Rattle.grid_projection.specs.Resolved.{cause};
ghost use Rattle.netcdf_source.specs.Laws.{HasHeader};
ghost use Rattle.saved_source.specs.Bodies.{Sends};
ghost use Rattle.saved_source.specs.Responses.{Holds, IsSaved, dataset_in};
ghost use Rattle.sequence_select.specs.Selections.{selections};
ghost use Rattle.xdr_encode.specs.Asked.{MarksAsk};
ghost use Rattle.xdr_encode.specs.Bodies.{FitsFile, HasNoFile, MayAsk, cost_in, text_in};
ghost use Rattle.xdr_encode.specs.Costs.{marks_cost};
ghost use Rattle.dap_outside.specs.Files.{Told};
ghost use Rattle.dap_server.specs.Costs.{IsFormCost, IsFormCostAt, head_len, marks_of};
ghost use Rattle.dap_server.specs.Files.{IsOneFile, form_of, is_read_first, netcdf_stored, saved, saved_stored, table_stored};
ghost use Rattle.dap_server.specs.Results.{DodsAnswers, result_text};
ghost use Rattle.dap_server.specs.inner.Opening.{Has, IsHeldBy, OpenedAs, WhereFault, WhereRefused, body_stop, saved_stop, stored_of};
ghost use Rattle.dap_server.specs.inner.Preparing.{WhereOfFile, WhereOfSaved};

use crate::data_body::DataBody;
use crate::marked::marked_by;
use crate::no_answer::Stop;
use crate::open::Opened;
use crate::saved_file::SavedFile;
use constraint_parse::Constraint;
use csv_source::Table;
use dap_errors::Cause;
use dap_http::Kind;
use dap_types::{Dataset, Index, List, Memory};
use netcdf_source::Header;
use saved_source::{SavedBody, SavedBodyRefusal};
use sequence_select::{Tests, mask};
use slab_fill::NoGate;
use std::alloc::Global;
use std::thread::Threads;
use xdr_encode::{Body, BodyRefusal};

/// The stop for which there is no body.
pub fn body_stop(refusal: BodyRefusal) -> Stop
    ensures { result ≡ body_stop refusal }
{
    match refusal {
        BodyRefusal::TooLarge { leaf } => Stop::Refused(Cause::TooLarge { leaf }),
        BodyRefusal::Memory => Stop::Memory,
    }
}

/// The body for what a query leaves of a netCDF file with that header and name.
pub fn cdf_body(alloc: Global, header: &Header, name: &str, query: &[u8]) -> Result<Body, Stop>
    ensures text { IfOk result (λ b. (bytes : List ℕ) → HasHeader header.now.contents bytes →
        DodsAnswers (netcdf_stored name.now bytes header.now.contents) query.now (Ok (result_text Kind.Dods (text_in b bytes)))) }
    ensures accepted { IfOk result (λ b. (bytes : List ℕ) → (text : List ℕ) ×
        DodsAnswers (netcdf_stored name.now bytes header.now.contents) query.now (Ok (result_text Kind.Dods text))) }
    ensures fits { IfOk result (λ b. FitsFile b header.now.length) }
    ensures cost { IfOk result (λ b. (constraint : Constraint) × Spells query.now constraint × (cost_in b ≤ marks_cost header.now.contents (marks_of header.now.contents name.now constraint))) }
    ensures cost_at { IfOk result (λ b. (constraint : Constraint) × Spells query.now constraint × ((bytes : List ℕ) (put cost : ℕ) → HasHeader header.now.contents bytes → MayAsk b bytes put cost →
        MarksAsk header.now.contents (marks_of header.now.contents name.now constraint) bytes (head_len header.now.contents name.now constraint) put cost)) }
    ensures refused { IfErr result (WhereRefused (λ why. (bytes : List ℕ) → DodsAnswers (netcdf_stored name.now bytes header.now.contents) query.now (Err why))) }
    ensures no_fault { IfErr result (WhereFault ⊥) }
{
    let dataset = header.dataset(alloc, name.as_bytes())?;
    let marked = marked_by(alloc, &dataset, query)?;
    match Body::of_cdf(alloc, header, &dataset, &marked.marks) {
        Ok(body) => Ok(body),
        Err(refusal) => Err(body_stop(refusal)),
    }
}

/// As many rows, all to be kept.
fn all_rows(alloc: Global, count: u32) -> Result<List<bool>, Memory>
    ensures { IfOk result (λ rows. length rows ≡ count) }
{
    let mut rows = List::with_capacity(alloc, count as usize)?;
    for _ in 0..count {
        rows.push(true)?;
    }
    Ok(rows)
}

/// The rows of a table in which the clauses of a constraint hold.
fn rows_kept<R: Threads + Sync>(
    rt: &R,
    alloc: Global,
    table: &Table,
    dataset: &Dataset,
    index: &Index,
    constraint: &Constraint,
    workers: u32,
) -> Result<List<bool>, Memory>
    requires dataset { dataset_view dataset.now ≡ table_dataset table.now }
    requires indexed { (path : List (List ℕ)) → number_in index.now path ≡ number_of (dataset_view dataset.now) path }
    requires accepted { cause (dataset_view dataset.now) constraint.now ≡ None }
    requires some { 1 ≤ workers }
    requires many { workers ≤ 64 }
    ensures { IfOk result (λ rows. rows ≡ map (λ row. kept (selections (table_dataset table.now) constraint.now) 1 (row_tree row)) table.now.rows) }
{
    let tests = Tests::new(alloc, table, dataset, index, constraint)?;
    let mut rows = all_rows(alloc, table.rows())?;
    mask(rt, table, &tests, rows.items_mut(), workers, &NoGate);
    Ok(rows)
}

/// The body for what a query leaves of a table.
pub fn table_body<R: Threads + Sync>(
    rt: &R,
    alloc: Global,
    table: Table,
    query: &[u8],
    workers: u32,
) -> Result<Body, Stop>
    requires some { 1 ≤ workers }
    requires many { workers ≤ 64 }
    ensures text { IfOk result (λ b. (held : List ℕ) → DodsAnswers (table_stored table) query.now (Ok (result_text Kind.Dods (text_in b held)))) }
    ensures alone { IfOk result HasNoFile }
    ensures fits { IfOk result (λ b. (size : ℕ) → FitsFile b size) }
    ensures cost { IfOk result (λ b. cost_in b ≡ 0) }
    ensures refused { IfErr result (WhereRefused (λ why. DodsAnswers (table_stored table) query.now (Err why))) }
    ensures no_fault { IfErr result (WhereFault ⊥) }
{
    let dataset = table.dataset(alloc)?;
    let marked = marked_by(alloc, &dataset, query)?;
    let rows = rows_kept(
        rt,
        alloc,
        &table,
        &dataset,
        &marked.index,
        &marked.constraint,
        workers,
    )?;
    match Body::of_table(alloc, table, rows, &dataset, &marked.marks) {
        Ok(body) => Ok(body),
        Err(refusal) => Err(body_stop(refusal)),
    }
}

/// The stop for which there is no body of a saved response.
fn saved_stop(refusal: SavedBodyRefusal) -> Stop
    ensures { result ≡ saved_stop refusal }
{
    match refusal {
        SavedBodyRefusal::TooLarge => Stop::Refused(Cause::TooLarge { leaf: 0 }),
        SavedBodyRefusal::Memory => Stop::Memory,
    }
}

/// The body for what a query leaves of a saved response.
fn saved_body(alloc: Global, response: SavedFile, query: &[u8]) -> Result<SavedBody, Stop>
    ensures text { IfOk result (λ b. (bytes name : List ℕ) (ts : List Tree) → IsSaved bytes name (dataset_in response.saved) ts → Holds response.saved ts →
        (text : List ℕ) × Sends b text × DodsAnswers (saved_stored (dataset_in response.saved) ts) query.now (Ok (result_text Kind.Dods text))) }
    ensures refused { IfErr result (WhereRefused (λ why. (ts : List Tree) → DodsAnswers (saved_stored (dataset_in response.saved) ts) query.now (Err why))) }
    ensures no_fault { IfErr result (WhereFault ⊥) }
{
    let dataset = response.dataset(alloc)?;
    let marked = marked_by(alloc, &dataset, query)?;
    match SavedBody::new(
        alloc,
        response.saved,
        &dataset,
        &marked.index,
        &marked.constraint,
        &marked.marks,
    ) {
        Ok(body) => Ok(body),
        Err(refusal) => Err(saved_stop(refusal)),
    }
}

/// The body for what a query leaves of a stored file of that name.
pub fn body_of<R: Threads + Sync>(
    rt: &R,
    alloc: Global,
    opened: Opened,
    name: &str,
    query: &[u8],
    workers: u32,
) -> Result<DataBody, Stop>
    requires some { 1 ≤ workers }
    requires many { workers ≤ 64 }
    ensures text { IfOk result (λ d. WhereOfFile d (λ b. (bytes held : List ℕ) (ts : List Tree) → OpenedAs opened name.now bytes ts → IsHeldBy opened bytes held →
        DodsAnswers (stored_of opened name.now ts) query.now (Ok (result_text Kind.Dods (text_in b held))))) }
    ensures sends { IfOk result (λ d. WhereOfSaved d (λ b. (bytes : List ℕ) (ts : List Tree) → OpenedAs opened name.now bytes ts →
        (text : List ℕ) × Sends b text × DodsAnswers (stored_of opened name.now ts) query.now (Ok (result_text Kind.Dods text)))) }
    ensures of_saved { IfOk result (λ d. WhereOfSaved d (λ b. (bytes : List ℕ) (ts : List Tree) → OpenedAs opened name.now bytes ts → form_of name.now ≡ Some saved)) }
    ensures of_file { IfOk result (λ d. WhereOfFile d (λ b. (bytes : List ℕ) (ts : List Tree) → OpenedAs opened name.now bytes ts → IsOneFile (form_of name.now))) }
    ensures accepted { IfOk result (λ d. (bytes : List ℕ) (ts : List Tree) → OpenedAs opened name.now bytes ts →
        (text : List ℕ) × DodsAnswers (stored_of opened name.now ts) query.now (Ok (result_text Kind.Dods text))) }
    ensures alone { IfOk result (λ d. WhereOfFile d (λ b. (bytes : List ℕ) (ts : List Tree) → OpenedAs opened name.now bytes ts → IsTrue (is_read_first (form_of name.now)) → HasNoFile b)) }
    ensures fits { IfOk result (λ d. WhereOfFile d (λ b. (bytes : List ℕ) (ts : List Tree) → OpenedAs opened name.now bytes ts → FitsFile b (length bytes))) }
    ensures cost { IfOk result (λ d. WhereOfFile d (λ b. (told : Told) (bytes : List ℕ) (ts : List Tree) → OpenedAs opened name.now bytes ts → Has told name.now bytes →
        (cost : ℕ) × IsFormCost (form_of name.now) told name.now query.now cost × (cost_in b ≤ cost))) }
    ensures cost_at { IfOk result (λ d. WhereOfFile d (λ b. (told : Told) (bytes : List ℕ) (ts : List Tree) (put cost : ℕ) → OpenedAs opened name.now bytes ts → Has told name.now bytes → All (λ byte. byte < 256) bytes →
        MayAsk b bytes put cost → IsFormCostAt (form_of name.now) told name.now query.now put cost)) }
    ensures refused { IfErr result (WhereRefused (λ why. (bytes : List ℕ) (ts : List Tree) → OpenedAs opened name.now bytes ts → DodsAnswers (stored_of opened name.now ts) query.now (Err why))) }
    ensures no_fault { IfErr result (WhereFault ⊥) }
{
    match opened {
        Opened::Netcdf(header) => {
            let body = cdf_body(alloc, &header, name, query)?;
            Ok(DataBody::OfFile(body))
        }
        Opened::Table(table) => {
            let rows = table_body(rt, alloc, table, query, workers)?;
            Ok(DataBody::OfFile(rows))
        }
        Opened::Saved(response) => {
            let values = saved_body(alloc, response, query)?;
            Ok(DataBody::Saved(values))
        }
    }
}
