ghost use Rattle.std.specs.Prelude.{◌≡◌, ◌*◌, ◌++◌, OnOk, ◌<◌, ◌^◌};
ghost use Rattle.dap_model.specs.Dds.{closing};

use dap_types::{Id, Memory};
use text_lines::{put, put_spaces};

/// Appends the last line of a whole.
#[tactic(auto, unfolding(dap_model::specs::Dds::line, dap_model::specs::Dds::closing))]
pub fn put_closing(out: &mut Vec<u8>, depth: u32, name: &Id) -> Result<(), Memory>
    requires { depth < 2 ^ 24 }
    ensures { OnOk result (out.new.items ≡ out.old.items ++ closing depth name.now) }
{
    put_spaces(out, 4 * depth)?;
    put(out, b"} ")?;
    put(out, name.bytes())?;
    put(out, b";\n")
}
