//! White space and signs of a DDS (DAP 2.0, DDS).

ghost use Rattle.std.specs.Prelude.{◌≡◌};
ghost use Rattle.dap_model.specs.Tokens as tokens;

pub fn is_white(byte: u8) -> bool
    ensures { result ≡ tokens.is_white byte }
{
    matches!(byte, b'\t' | b'\n' | b'\r' | b' ')
}

pub fn is_sign(byte: u8) -> bool
    ensures { result ≡ tokens.is_sign byte }
{
    matches!(byte, b'{' | b'}' | b'[' | b']' | b';' | b'=' | b',' | b':')
}
