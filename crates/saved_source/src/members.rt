//! The variables of a response on their way to a sink.

ghost use Rattle.std.specs.Prelude.{◌≡◌, ◌<◌, ◌≤◌, ◌+◌, ◌^◌, ◌∷◌, ℕ, List, length, IfOk};
ghost use Rattle.dap_model.specs.Filter.{Suits};
ghost use Rattle.dap_model.specs.Rows.{kept};
ghost use Rattle.dap_model.specs.Xdr as xdr;
ghost use Rattle.dap_outside.specs.Buffered.{Puts};
ghost use Rattle.dap_outside.specs.Causes.{HasCause};
ghost use Rattle.dap_types.specs.Model.{Tree, count, count_all};
ghost use Rattle.dap_types.specs.View.{member_view, members_view};
ghost use Rattle.grid_projection.specs.Resolved.{marks_in};
ghost use Rattle.saved_source.specs.Walked.{StandArrays, StandMembers, StandsMember, array_sent};
ghost use Rattle.xdr_values.specs.Walked.{StandsArray};
ghost use Rattle.sequence_select.specs.Tests.{tested};
ghost use Rattle.xdr_encode.specs.Marked.{arrays_sent, member_sent, members_sent};

use crate::arrays::put_array;
use crate::rows::put_rows;
use crate::scalars::put_marked;
use dap_outside::{Buffer, Failed, Sink};
use dap_types::{ArrayDecl, Decl};
use grid_projection::Marks;
use sequence_select::Tests;
use xdr_values::behind_array;

/// Puts what is marked of the array that is this member. The answer is what stands behind it.
fn put_leaf<'a, O: Sink>(
    buffer: &mut Buffer,
    out: &mut O,
    marks: &Marks,
    number: u32,
    decl: &ArrayDecl,
    bytes: &'a [u8],
) -> Result<&'a [u8], Failed>
    ensures puts { (t : Tree) (rest : List ℕ) → StandsArray decl.now t bytes.now rest → Suits (marks_in marks.now number) decl.now →
        Puts (O.written out.old) buffer.old.bytes.items (O.written out.new) buffer.new.bytes.items result (xdr.bytes_of (array_sent (marks_in marks.now) number decl.now t)) }
    ensures rest { (t : Tree) (rest : List ℕ) → StandsArray decl.now t bytes.now rest → IfOk result (λ left. left.now ≡ rest) }
    ensures cause { HasCause (O.put_faults out.old) (O.put_faults out.new) result }
    ensures beside { O.beside_writing out.new ≡ O.beside_writing out.old }
{
    let rest = behind_array(decl, bytes);
    let Some(slabs) = marks.slabs(number) else {
        return Ok(rest);
    };
    put_array(buffer, out, decl, slabs, bytes)?;
    Ok(rest)
}

/// Puts what is marked of arrays, of which the first is this member. The answer is what stands behind
/// them.
fn put_arrays<'a, O: Sink>(
    buffer: &mut Buffer,
    out: &mut O,
    marks: &Marks,
    first: u32,
    arrays: &[ArrayDecl],
    bytes: &'a [u8],
) -> Result<&'a [u8], Failed>
    requires { first + length arrays.now ≤ 2 ^ 32 }
    ensures puts { (ts : List Tree) (rest : List ℕ) → StandArrays (marks_in marks.now) first arrays.now ts bytes.now rest →
        Puts (O.written out.old) buffer.old.bytes.items (O.written out.new) buffer.new.bytes.items result (xdr.bytes_of (arrays_sent (marks_in marks.now) first arrays.now ts)) }
    ensures rest { (ts : List Tree) (rest : List ℕ) → StandArrays (marks_in marks.now) first arrays.now ts bytes.now rest → IfOk result (λ left. left.now ≡ rest) }
    ensures cause { HasCause (O.put_faults out.old) (O.put_faults out.new) result }
    ensures beside { O.beside_writing out.new ≡ O.beside_writing out.old }
{
    let mut rest = bytes;
    for (k, array) in arrays.iter().enumerate() {
        rest = put_leaf(buffer, out, marks, first + k as u32, array, rest)?;
    }
    Ok(rest)
}

/// Puts what is marked of the Grid whose array is this member. The answer is what stands behind it.
fn put_grid<'a, O: Sink>(
    buffer: &mut Buffer,
    out: &mut O,
    marks: &Marks,
    first: u32,
    own: &ArrayDecl,
    maps: &[ArrayDecl],
    bytes: &'a [u8],
) -> Result<&'a [u8], Failed>
    requires { first + length maps.now + 1 < 2 ^ 32 }
    ensures puts { (ts : List Tree) (rest : List ℕ) → StandArrays (marks_in marks.now) first (own.now ∷ maps.now) ts bytes.now rest →
        Puts (O.written out.old) buffer.old.bytes.items (O.written out.new) buffer.new.bytes.items result (xdr.bytes_of (arrays_sent (marks_in marks.now) first (own.now ∷ maps.now) ts)) }
    ensures rest { (ts : List Tree) (rest : List ℕ) → StandArrays (marks_in marks.now) first (own.now ∷ maps.now) ts bytes.now rest → IfOk result (λ left. left.now ≡ rest) }
    ensures cause { HasCause (O.put_faults out.old) (O.put_faults out.new) result }
    ensures beside { O.beside_writing out.new ≡ O.beside_writing out.old }
{
    let rest = put_leaf(buffer, out, marks, first, own, bytes)?;
    put_arrays(buffer, out, marks, first + 1, maps, rest)
}

/// Puts what a constraint leaves of the variable that is this member. The answer is what stands behind
/// it, and the number behind its parts.
#[cycle(variables)]
#[tactic(auto, using(dap_types::proofs::Views::views))]
fn put_member<'a, O: Sink>(
    buffer: &mut Buffer,
    out: &mut O,
    marks: &Marks,
    tests: &Tests,
    number: u32,
    decl: &Decl,
    bytes: &'a [u8],
) -> Result<(&'a [u8], u32), Failed>
    requires { number + count (member_view decl.now) < 2 ^ 32 }
    ensures puts { (t : Tree) (rest : List ℕ) → StandsMember (marks_in marks.now) number (member_view decl.now) t bytes.now rest →
        Puts (O.written out.old) buffer.old.bytes.items (O.written out.new) buffer.new.bytes.items result (xdr.bytes_of (member_sent (marks_in marks.now) (kept (tested tests.now)) number (member_view decl.now) t)) }
    ensures rest { (t : Tree) (rest : List ℕ) → StandsMember (marks_in marks.now) number (member_view decl.now) t bytes.now rest → IfOk result (λ left. left.0.now ≡ rest) }
    ensures next { IfOk result (λ left. left.1 ≡ number + count (member_view decl.now)) }
    ensures cause { HasCause (O.put_faults out.old) (O.put_faults out.new) result }
    ensures beside { O.beside_writing out.new ≡ O.beside_writing out.old }
{
    match decl {
        Decl::Base(column) => {
            let rest = put_marked(buffer, out, marks, number, column.base, bytes)?;
            Ok((rest, number + 1))
        }
        Decl::Array(decl) => {
            let rest = put_leaf(buffer, out, marks, number, decl, bytes)?;
            Ok((rest, number + 1))
        }
        Decl::Structure(_, parts) => {
            put_members(buffer, out, marks, tests, number + 1, parts.items(), bytes)
        }
        Decl::Grid(_, own, maps) => {
            let maps = maps.items();
            let rest = put_grid(buffer, out, marks, number + 1, own, maps, bytes)?;
            Ok((rest, number + 2 + maps.len() as u32))
        }
        Decl::Sequence(_, columns) => {
            let columns = columns.items();
            let rest = put_rows(buffer, out, marks, tests, number, columns, bytes)?;
            Ok((rest, number + 1 + columns.len() as u32))
        }
    }
}

/// Puts what a constraint leaves of variables, of which the first is this member. The answer is what
/// stands behind them, and the number behind their parts.
#[cycle(variables)]
pub fn put_members<'a, O: Sink>(
    buffer: &mut Buffer,
    out: &mut O,
    marks: &Marks,
    tests: &Tests,
    first: u32,
    decls: &[Decl],
    bytes: &'a [u8],
) -> Result<(&'a [u8], u32), Failed>
    requires { first + count_all (members_view decls.now) < 2 ^ 32 }
    ensures puts { (ts : List Tree) (rest : List ℕ) → StandMembers (marks_in marks.now) first (members_view decls.now) ts bytes.now rest →
        Puts (O.written out.old) buffer.old.bytes.items (O.written out.new) buffer.new.bytes.items result (xdr.bytes_of (members_sent (marks_in marks.now) (kept (tested tests.now)) first (members_view decls.now) ts)) }
    ensures rest { (ts : List Tree) (rest : List ℕ) → StandMembers (marks_in marks.now) first (members_view decls.now) ts bytes.now rest → IfOk result (λ left. left.0.now ≡ rest) }
    ensures next { IfOk result (λ left. left.1 ≡ first + count_all (members_view decls.now)) }
    ensures cause { HasCause (O.put_faults out.old) (O.put_faults out.new) result }
    ensures beside { O.beside_writing out.new ≡ O.beside_writing out.old }
{
    let mut rest = bytes;
    let mut number = first;
    for decl in decls {
        let (behind, next) = put_member(buffer, out, marks, tests, number, decl, rest)?;
        rest = behind;
        number = next;
    }
    Ok((rest, number))
}
