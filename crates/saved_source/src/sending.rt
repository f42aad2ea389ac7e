ghost use Rattle.std.specs.Prelude.{◌≡◌, ◌<◌, ◌≤◌, ℕ, List, None, length, IfOk, IfErr, IsOk, OnErr, OnOk};
ghost use Rattle.std.specs.Io.KnownBytes.{Appends};
ghost use Rattle.dap_types.specs.Limits.{most_text};
ghost use Rattle.dap_model.specs.Body.{too_large};
ghost use Rattle.dap_model.specs.Dds.{dds};
ghost use Rattle.dap_model.specs.Filter.{SuitsAll, constrained};
ghost use Rattle.dap_outside.specs.Causes.{HasCause};
ghost use Rattle.dap_outside.specs.Streams.{AppendsFront};
ghost use Rattle.dap_types.specs.Model.{Tree};
ghost use Rattle.dap_types.specs.Numbered.{number_in};
ghost use Rattle.dap_types.specs.View.{dataset_view};
ghost use Rattle.dap_types.specs.WellFormed.{IsWellFormed, number_of};
ghost use Rattle.grid_projection.specs.Resolved.{cause, marks_in};
ghost use Rattle.sequence_select.specs.Selections.{selections};
ghost use Rattle.saved_source.specs.Bodies.{Sends, filtered_body};
ghost use Rattle.saved_source.specs.Refusals.{IsBodyRefusal};
ghost use Rattle.saved_source.specs.Responses.{Holds, IsSaved, dataset_in};

use crate::body::SavedBody;
use crate::members::put_members;
use crate::refusal::SavedBodyRefusal;
use crate::saved::Saved;
use constraint_parse::Constraint;
use dap_outside::{Buffer, Failed, Sink};
use dap_types::{Bytes, Dataset, Index};
use grid_projection::Marks;
use sequence_select::Tests;
use std::alloc::Global;
use xdr_encode::{BodyRefusal, head_of, left_dds};

/// The DDS of what the marks leave of a dataset.
fn text_left(alloc: Global, dataset: &Dataset, marks: &Marks) -> Result<Bytes, SavedBodyRefusal>
    requires { IsWellFormed (dataset_view dataset.now) }
    ensures text { IfOk result (λ text. text ≡ dds (constrained (marks_in marks.now) (dataset_view dataset.now))) }
    ensures short { IfOk result (λ text. length text ≤ most_text) }
    ensures refused { IfErr result (IsBodyRefusal (constrained (marks_in marks.now) (dataset_view dataset.now))) }
{
    match left_dds(alloc, dataset, marks) {
        Ok(text) => Ok(text),
        Err(BodyRefusal::TooLarge { leaf: _ }) => Err(SavedBodyRefusal::TooLarge),
        Err(BodyRefusal::Memory) => Err(SavedBodyRefusal::Memory),
    }
}

impl SavedBody {
    /// The data response for what a constraint leaves of a saved one. Conditions: the dataset is that of
    /// the saved response, the index was made for it, `resolve` has no cause for the constraint in it,
    /// and these are its marks. `TooLarge` comes where the DDS of what is left has more than 16,777,216
    /// bytes; `Memory` comes where memory is wanted, and in place of any other answer.
    pub fn new(
        alloc: Global,
        saved: Saved,
        dataset: &Dataset,
        index: &Index,
        constraint: &Constraint,
        marks: &Marks,
    ) -> Result<SavedBody, SavedBodyRefusal>
        requires dataset { dataset_view dataset.now ≡ dataset_in saved }
        requires well_formed { IsWellFormed (dataset_view dataset.now) }
        requires indexed { (path : List (List ℕ)) → number_in index.now path ≡ number_of (dataset_view dataset.now) path }
        requires accepted { cause (dataset_view dataset.now) constraint.now ≡ None }
        requires suits { SuitsAll (marks_in marks.now) 1 (dataset_view dataset.now).members }
        // Whatever values the response holds, it sends what is left of them.
        ensures text { IfOk result (λ b. (ts : List Tree) → Holds saved ts →
            Sends b (filtered_body (marks_in marks.now) (selections (dataset_view dataset.now) constraint.now) (dataset_view dataset.now) ts)) }
        ensures small { IsOk result → length (dds (constrained (marks_in marks.now) (dataset_view dataset.now))) ≤ most_text }
        // Whatever file holds the response, no leaf of what is left has too many elements.
        ensures fits { IsOk result → (bytes file_name : List ℕ) (ts : List Tree) → IsSaved bytes file_name (dataset_view dataset.now) ts →
            too_large (constrained (marks_in marks.now) (dataset_view dataset.now)) ≡ None }
        ensures refused { IfErr result (IsBodyRefusal (constrained (marks_in marks.now) (dataset_view dataset.now))) }
    {
        let text = text_left(alloc, dataset, marks)?;
        Ok(SavedBody {
            head: head_of(alloc, text.bytes())?,
            saved,
            marks: marks.try_clone(alloc)?,
            tests: Tests::of_dataset(alloc, dataset, index, constraint)?,
        })
    }

    /// Puts the response. Takes no memory. Fails only where the count of faults rose, and then a front of
    /// it was put.
    pub fn stream<O: Sink>(&mut self, out: &mut O) -> Result<(), Failed>
        ensures ok { OnOk result ((text : List ℕ) → Sends self.old text → Appends (O.written out.old) (O.written out.new) text) }
        ensures err { OnErr result ((text : List ℕ) → Sends self.old text → AppendsFront (O.written out.old) (O.written out.new) text) }
        ensures same { (text : List ℕ) → Sends self.old text → Sends self.new text }
        ensures cause { HasCause (O.put_faults out.old) (O.put_faults out.new) result }
        ensures beside { O.beside_writing out.new ≡ O.beside_writing out.old }
    {
        let SavedBody {
            head,
            saved,
            marks,
            tests,
        } = self;
        let mut buffer = Buffer::new();
        buffer.put(out, head.bytes())?;
        put_members(
            &mut buffer,
            out,
            marks,
            tests,
            1,
            saved.response.members.items(),
            saved.values(),
        )?;
        buffer.flush(out)
    }
}
