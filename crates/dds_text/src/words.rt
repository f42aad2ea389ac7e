//! The bytes of tokens (DAP 2.0, DDS).

ghost use Rattle.std.specs.Prelude.{◌≡◌};
ghost use Rattle.dap_model.specs.Tokens.{is_plain, is_sign, is_white};

fn is_white(byte: u8) -> bool
    ensures { result ≡ is_white byte }
{
    matches!(byte, b'\t' | b'\n' | b'\r' | b' ')
}

/// Whether the byte is a token of its own.
pub fn is_sign(byte: u8) -> bool
    ensures { result ≡ is_sign byte }
{
    matches!(byte, b'{' | b'}' | b'[' | b']' | b';' | b'=' | b',' | b':')
}

/// Whether the byte is part of a word.
pub fn is_plain(byte: u8) -> bool
    ensures { result ≡ is_plain byte }
{
    !(is_white(byte) || is_sign(byte))
}
