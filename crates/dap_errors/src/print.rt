ghost use Rattle.std.specs.Prelude.{◌≡◌, ◌++◌, IfOk, OnOk};
ghost use Rattle.std.specs.Fmt.{decimal};
ghost use Rattle.viable.specs.Quoted.{escape};
ghost use Rattle.dap_errors.specs.Printed.{error_text};

use dap_types::{Bytes, Memory};
use std::alloc::{AllocError, Global};
use viable::push_escaped;

fn put(out: &mut Vec<u8>, bytes: &[u8]) -> Result<(), AllocError>
    ensures { OnOk result (out.new.items ≡ out.old.items ++ bytes.now) }
{
    out.extend_from_slice(bytes)
}

fn put_number(out: &mut Vec<u8>, number: u32) -> Result<(), AllocError>
    ensures { OnOk result (out.new.items ≡ out.old.items ++ decimal number) }
{
    let mut buffer = itoa::Buffer::new();
    put(out, buffer.format(number).as_bytes())
}

/// Puts a message as it stands between quotes.
fn put_escaped(out: &mut Vec<u8>, message: &[u8]) -> Result<(), AllocError>
    ensures { OnOk result (out.new.items ≡ out.old.items ++ escape message.now) }
{
    push_escaped(out, message)
}

/// An Error object of this code and message as it is printed (DAP 2.0, Error objects; the layout is
/// this project's). Fails where memory is wanted.
pub fn print_error(alloc: Global, code: u32, message: &[u8]) -> Result<Bytes, Memory>
    ensures { IfOk result (λ text. text ≡ error_text code message.now) }
{
    let mut out = Vec::new(alloc);
    put(&mut out, b"Error {\n    code = ")?;
    put_number(&mut out, code)?;
    put(&mut out, b";\n    message = \"")?;
    put_escaped(&mut out, message)?;
    put(&mut out, b"\";\n};\n")?;
    Ok(Bytes::from_vec(out))
}
