//! The attributes of a saved response.

ghost use Rattle.std.specs.Prelude.{◌≡◌, IfOk};
ghost use Rattle.dap_types.specs.View.{members_view};
ghost use Rattle.das_text.specs.View.{attributes_view};
ghost use Rattle.saved_source.specs.Responses.{empty_containers, renamed_all};

use dap_types::{Decl, Id, List, Memory};
use das_text::{Attributes, Entry};
use std::alloc::Global;

/// A container without entries for each variable, under its name of a constraint (DAP 2.0, DAS).
pub fn empty_containers(alloc: Global, decls: &[Decl]) -> Result<Attributes, Memory>
    ensures { IfOk result (λ a. attributes_view a ≡ record { containers = empty_containers (renamed_all (members_view decls.now)) }) }
{
    let mut containers = List::with_capacity(alloc, decls.len())?;
    for decl in decls {
        let name = Id::of_constraint(alloc, decl.name().bytes())?;
        containers.push(Entry::Container(name, List::new(alloc)))?;
    }
    Ok(Attributes { containers })
}
