ghost use Rattle.std.specs.Prelude.{◌≡◌, ◌+◌, ◌≤◌, ◌^◌, IfOk, nat_lt};
ghost use Rattle.dap_types.specs.Judged.{inner};
ghost use Rattle.dap_types.specs.Model.{count, count_all};
ghost use Rattle.dap_types.specs.View.{member_view, members_view};

use crate::limits::MOST_MEMBERS;
use crate::{Decl, Memory};
use std::alloc::Global;

/// How many members a declaration is without the parts of a Structure.
#[tactic(auto, using(crate::proofs::Views::views))]
fn own_count(decl: &Decl) -> u64
    ensures own { let m = member_view decl.now in result + count_all (inner m) ≡ count m }
    ensures some { 1 ≤ result }
    ensures few { result ≤ 2 ^ 63 }
{
    match decl {
        Decl::Base(_) | Decl::Array(_) | Decl::Structure(_, _) => 1,
        Decl::Grid(_, _, maps) => maps.items().len() as u64 + 2,
        Decl::Sequence(_, columns) => columns.items().len() as u64 + 1,
    }
}

/// The parts of a Structure, and none of any other declaration.
#[tactic(auto, using(crate::proofs::Views::views))]
fn inner(decl: &Decl) -> &[Decl]
    ensures { members_view result.now ≡ inner (member_view decl.now) }
{
    match decl {
        Decl::Structure(_, parts) => parts.items(),
        Decl::Base(_) | Decl::Array(_) | Decl::Grid(_, _, _) | Decl::Sequence(_, _) => &[],
    }
}

/// Whether there are more members than a dataset may have. Levels that are still to be counted
/// stand on a stack, so that no depth of the declarations is one of the program's.
pub fn has_too_many(alloc: Global, members: &[Decl]) -> Result<bool, Memory>
    ensures { IfOk result (λ b. b ≡ nat_lt 1000000 (count_all (members_view members.now))) }
{
    let mut open = Vec::new(alloc);
    open.push(members)?;
    let mut met = 0;
    while let Some(level) = open.pop() {
        let [decl, rest @ ..] = level else {
            continue;
        };
        met += own_count(decl);
        if met > MOST_MEMBERS {
            return Ok(true);
        }
        open.push(rest)?;
        open.push(inner(decl))?;
    }
    Ok(false)
}
