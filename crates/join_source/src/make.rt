//! Bodies, out of joined headers and the marks of a constraint.

ghost use Rattle.std.specs.Prelude.{◌≡◌, ◌≤◌, ◌++◌, ℕ, List, Err, IfOk, IsOk, None, Some, codes, length};
ghost use Rattle.dap_model.specs.Body.{body, too_large};
ghost use Rattle.dap_model.specs.Dds.{dds};
ghost use Rattle.dap_model.specs.Filter.{Keeps, SuitsAll, constrained, constrained_trees};
ghost use Rattle.dap_types.specs.View.{dataset_view};
ghost use Rattle.dap_types.specs.WellFormed.{IsWellFormed};
ghost use Rattle.grid_projection.specs.Resolved.{marks_in};
ghost use Rattle.join_source.specs.Asked.{JoinedAsk};
ghost use Rattle.join_source.specs.Bodies.{FitsFiles, MayAsk, cost_in, dds_in, text_in};
ghost use Rattle.join_source.specs.Costs.{joined_cost};
ghost use Rattle.join_source.specs.Joins.{headers_in, members_in, name_in};
ghost use Rattle.join_source.specs.Members.{HaveHeaders, joined_dataset, lengths_of};
ghost use Rattle.join_source.specs.Trees.{joined_trees};

use crate::piece::Piece;
use crate::pieces::marked_pieces;
use crate::{JoinBody, Joined};
use dap_types::{Dataset, List, Memory};
use grid_projection::Marks;
use std::alloc::Global;
use xdr_encode::{BodyRefusal, head_of, left_dds, room};

/// The body with that DDS, and its rooms.
fn body_of(alloc: Global, text: &[u8], pieces: List<Piece>) -> Result<JoinBody, Memory>
    ensures head { IfOk result (λ b. b.head ≡ text.now ++ codes "Data:\n") }
    ensures dds { IfOk result (λ b. b.dds_len ≡ length text.now) }
    ensures pieces { IfOk result (λ b. b.pieces ≡ pieces) }
{
    let head = head_of(alloc, text)?;
    let raw = room(alloc)?;
    let sent = room(alloc)?;
    Ok(JoinBody {
        head,
        dds_len: text.len(),
        pieces,
        raw,
        sent,
    })
}

impl JoinBody {
    /// The body of the data response for what the marks leave of joined files. Condition: the dataset is that of the
    /// files, and the marks were made for it. All memory is taken here.
    ///
    /// # Errors
    ///
    /// `TooLarge` where the DDS or a leaf of what is left is too large; `Memory` where memory was wanted.
    #[tactic(auto, unfolding(crate::specs::Bodies::dds_in, crate::specs::Bodies::cost_in, crate::specs::Bodies::FitsFiles))]
    pub fn new(
        alloc: Global,
        joined: &Joined,
        dataset: &Dataset,
        marks: &Marks,
    ) -> Result<JoinBody, BodyRefusal>
        requires dataset { dataset_view dataset.now ≡ joined_dataset (members_in joined.now) (name_in joined.now) }
        requires well_formed { IsWellFormed (dataset_view dataset.now) }
        requires suits { SuitsAll (marks_in marks.now) 1 (dataset_view dataset.now).members }
        // Whatever the files are whose headers they are, this is the body of their values together,
        ensures text { IfOk result (λ b. (files : List (List ℕ)) (keeps : Keeps) → HaveHeaders (members_in joined.now) files →
            text_in b files ≡ body (constrained (marks_in marks.now) (dataset_view dataset.now)) (constrained_trees (marks_in marks.now) keeps (dataset_view dataset.now) (joined_trees (members_in joined.now) files))) }
        ensures dds { IfOk result (λ b. dds_in b ≡ dds (constrained (marks_in marks.now) (dataset_view dataset.now))) }
        // it reads within them,
        ensures fits { IfOk result (λ b. FitsFiles b (lengths_of (headers_in joined.now))) }
        // and at most the cost of the marks, of which it asks no more before it puts what stands before.
        ensures asks { IfOk result (λ b. (files : List (List ℕ)) → HaveHeaders (members_in joined.now) files → (put asked : ℕ) → MayAsk b files put asked →
            JoinedAsk (members_in joined.now) (marks_in marks.now) files (length (dds (constrained (marks_in marks.now) (dataset_view dataset.now)) ++ codes "Data:\n")) put asked) }
        ensures cost { IfOk result (λ b. cost_in b ≤ joined_cost (members_in joined.now) (marks_in marks.now)) }
        // What is too large is refused, and nothing else.
        ensures only_small { IsOk result → too_large (constrained (marks_in marks.now) (dataset_view dataset.now)) ≡ None }
        ensures refused { (leaf : ℕ) → result ≡ Err (BodyRefusal.TooLarge leaf) → too_large (constrained (marks_in marks.now) (dataset_view dataset.now)) ≡ Some leaf }
    {
        let text = match left_dds(alloc, dataset, marks) {
            Ok(text) => text,
            Err(refusal) => return Err(refusal),
        };
        let pieces = match marked_pieces(alloc, joined.headers.items(), marks) {
            Ok(pieces) => pieces,
            Err(refusal) => return Err(refusal),
        };
        match body_of(alloc, text.bytes(), pieces) {
            Ok(body) => Ok(body),
            Err(Memory) => Err(BodyRefusal::Memory),
        }
    }
}
