//! The parser: one way through the text from its front, a function for each part of the grammar.

ghost use Rattle.std.specs.Prelude.{◌≡◌, IsTrue, IfOk, IfErr, MatchResult};
ghost use Rattle.std.specs.List.{list_all};
ghost use Rattle.viable.specs.Prefix.{is_byte, IsFault};
ghost use Rattle.constraint_parse.specs.Refusals.{Refuses, AtFault};
ghost use Rattle.constraint_parse.specs.Slabs.{has_slabs};
ghost use Rattle.constraint_parse.specs.Values.{Spells};
ghost use Rattle.constraint_parse.specs.declared.constraint.Constraint.{Constraint};

use crate::clauses::clause_list;
use crate::items::first_items;
use crate::scan::skip_blanks;
use crate::{Constraint, ParseRefusal};
use std::alloc::Global;

fn read(alloc: Global, text: &[u8]) -> Result<Constraint, ParseRefusal>
    ensures { MatchResult result (Spells text.now) (Refuses text.now) }
{
    let start = skip_blanks(text, 0);
    let (items, at) = first_items(alloc, text, start)?;
    let (clauses, at) = clause_list(alloc, text, at)?;
    if at < text.len() {
        return Err(ParseRefusal::at(at));
    }
    Ok(Constraint { items, clauses })
}

/// The constraint that a text spells (DAP 2.0, constraint expressions). The text is the query of a
/// request, percent-decoded once. A text that spells none is refused at the byte with which it no
/// longer begins a constraint, or at its end where it only breaks off.
pub fn parse(alloc: Global, text: &[u8]) -> Result<Constraint, ParseRefusal>
    ensures spelled { IfOk result (Spells text.now) }

    // What spells a constraint is read as that one, unless memory is wanted.
    ensures read { (constraint : Constraint) → Spells text.now constraint → MatchResult result (λ found. found ≡ constraint) (λ refusal. refusal ≡ ParseRefusal.Memory) }

    // A slab has no negative number, and one in the middle only beside a last one.
    ensures slabs { IfOk result (λ constraint. IsTrue (list_all has_slabs constraint.items)) }

    // A text that spells none is refused at its fault: the bytes before it, with some more behind them,
    // spell a constraint, and with the byte at its place they begin none.
    ensures fault { IfErr result (AtFault (IsFault is_byte Spells text.now)) }
{
    read(alloc, text)
}
