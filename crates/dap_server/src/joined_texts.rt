//! What joined files are answered with: the DAS, and the DDS and the body for what a query leaves of them.

ghost use Rattle.std.specs.Prelude.{◌≡◌, ◌≤◌, ℕ, List, IfOk, IfErr, Ok, Err};
ghost use Rattle.constraint_parse.specs.Values.{Spells};
ghost use Rattle.constraint_parse.specs.declared.constraint.Constraint.{Constraint};
ghost use Rattle.das_text.specs.Das.{das};
ghost use Rattle.join_source.specs.Asked.{JoinedAsk};
ghost use Rattle.join_source.specs.Bodies.{FitsFiles, MayAsk, cost_in, text_in};
ghost use Rattle.join_source.specs.Costs.{joined_cost};
ghost use Rattle.join_source.specs.Joins.{headers_in, members_in, name_in};
ghost use Rattle.join_source.specs.Members.{HaveHeaders, joined_attributes, lengths_of};
ghost use Rattle.dap_server.specs.Costs.{join_head_len, join_marks};
ghost use Rattle.dap_server.specs.Joins.{stored_together};
ghost use Rattle.dap_server.specs.Results.{DdsAnswers, DodsAnswers, result_text};
ghost use Rattle.dap_server.specs.inner.Opening.{WhereFault, WhereRefused};

use crate::bodies::body_stop;
use crate::marked::marked_by;
use crate::no_answer::Stop;
use crate::texts::dds_left;
use dap_http::Kind;
use dap_types::{Bytes, Memory};
use join_source::{JoinBody, Joined};
use std::alloc::Global;

/// The DAS of joined files.
pub fn joined_das_text(alloc: Global, joined: &Joined) -> Result<Bytes, Memory>
    ensures { IfOk result (λ text. text ≡ das (joined_attributes (members_in joined.now))) }
{
    let attributes = joined.attributes(alloc)?;
    das_text::print(alloc, &attributes)
}

/// The DDS of what a query leaves of joined files.
pub fn joined_dds_text(alloc: Global, joined: &Joined, query: &[u8]) -> Result<Bytes, Stop>
    ensures text { IfOk result (λ text. (files : List (List ℕ)) → DdsAnswers (stored_together (name_in joined.now) (members_in joined.now) files) query.now (Ok (result_text Kind.Dds text))) }
    ensures refused { IfErr result (WhereRefused (λ why. (files : List (List ℕ)) → DdsAnswers (stored_together (name_in joined.now) (members_in joined.now) files) query.now (Err why))) }
    ensures no_fault { IfErr result (WhereFault ⊥) }
{
    let dataset = joined.dataset(alloc)?;
    let marked = marked_by(alloc, &dataset, query)?;
    let text = dds_left(alloc, &dataset, &marked.marks)?;
    Ok(text)
}

/// The body for what a query leaves of joined files.
pub fn join_body(alloc: Global, joined: &Joined, query: &[u8]) -> Result<JoinBody, Stop>
    ensures text { IfOk result (λ b. (files : List (List ℕ)) → HaveHeaders (members_in joined.now) files →
        DodsAnswers (stored_together (name_in joined.now) (members_in joined.now) files) query.now (Ok (result_text Kind.Dods (text_in b files)))) }
    ensures accepted { IfOk result (λ b. (files : List (List ℕ)) → (text : List ℕ) ×
        DodsAnswers (stored_together (name_in joined.now) (members_in joined.now) files) query.now (Ok (result_text Kind.Dods text))) }
    ensures fits { IfOk result (λ b. FitsFiles b (lengths_of (headers_in joined.now))) }
    ensures cost { IfOk result (λ b. (constraint : Constraint) × Spells query.now constraint × (cost_in b ≤ joined_cost (members_in joined.now) (join_marks (members_in joined.now) (name_in joined.now) constraint))) }
    ensures cost_at { IfOk result (λ b. (constraint : Constraint) × Spells query.now constraint × ((files : List (List ℕ)) (put cost : ℕ) → HaveHeaders (members_in joined.now) files → MayAsk b files put cost →
        JoinedAsk (members_in joined.now) (join_marks (members_in joined.now) (name_in joined.now) constraint) files (join_head_len (members_in joined.now) (name_in joined.now) constraint) put cost)) }
    ensures refused { IfErr result (WhereRefused (λ why. (files : List (List ℕ)) → DodsAnswers (stored_together (name_in joined.now) (members_in joined.now) files) query.now (Err why))) }
    ensures no_fault { IfErr result (WhereFault ⊥) }
{
    let dataset = joined.dataset(alloc)?;
    let marked = marked_by(alloc, &dataset, query)?;
    match JoinBody::new(alloc, joined, &dataset, &marked.marks) {
        Ok(body) => Ok(body),
        Err(refusal) => Err(body_stop(refusal)),
    }
}
