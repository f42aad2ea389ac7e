ghost use Rattle.std.specs.Prelude.{◌≡◌, ◌*◌, ◌/◌, ◌%◌, ◌^◌, ◌<◌, ◌++◌, OnOk, replicate};
ghost use Rattle.std.specs.Fmt.{decimal};
ghost use Rattle.dap_model.specs.Dds.{line};
ghost use Rattle.dap_model.specs.Shown.{hex};

use dap_types::Memory;
use viable::hex_digit;

/// Appends the bytes.
pub fn put(out: &mut Vec<u8>, bytes: &[u8]) -> Result<(), Memory>
    ensures { OnOk result (out.new.items ≡ out.old.items ++ bytes.now) }
{
    out.extend_from_slice(bytes)?;
    Ok(())
}

/// Appends that many spaces.
pub fn put_spaces(out: &mut Vec<u8>, count: u32) -> Result<(), Memory>
    ensures { OnOk result (out.new.items ≡ out.old.items ++ replicate count 32) }
{
    out.resize(out.len() + count as usize, b' ')?;
    Ok(())
}

/// Appends the number in decimal digits.
pub fn put_number(out: &mut Vec<u8>, number: u32) -> Result<(), Memory>
    ensures { OnOk result (out.new.items ≡ out.old.items ++ decimal number) }
{
    let mut buffer = itoa::Buffer::new();
    put(out, buffer.format(number).as_bytes())
}

/// The value of the digit behind which so many others stand, in hexadecimal.
fn digit_before(behind: u32, bits: u64) -> u8
    ensures few { result < 16 }
    ensures digit { result ≡ bits / 2 ^ (4 * behind) % 16 }
{
    if behind < 16 {
        (bits >> (4 * behind) & 15) as u8
    } else {
        0
    }
}

/// Appends so many digits of the bits in hexadecimal, in lower case.
pub fn put_hex(out: &mut Vec<u8>, digits: u32, bits: u64) -> Result<(), Memory>
    ensures { OnOk result (out.new.items ≡ out.old.items ++ hex digits bits) }
{
    for i in 0..digits {
        out.push(hex_digit(digit_before(digits - 1 - i, bits), false))?;
    }
    Ok(())
}

/// Appends a line, that many spaces in.
#[tactic(auto, unfolding(dap_model::specs::Dds::line))]
pub fn put_line(out: &mut Vec<u8>, spaces: u32, text: &[u8]) -> Result<(), Memory>
    ensures { OnOk result (out.new.items ≡ out.old.items ++ line spaces text.now) }
{
    put_spaces(out, spaces)?;
    put(out, text)?;
    put(out, b"\n")
}
