//! The line between a DDS and the values.

ghost use Rattle.std.specs.Prelude.{◌≡◌, ◌++◌, IfOk, IfErr};
ghost use Rattle.std.specs.List.{AllPass};
ghost use Rattle.dap_model.specs.Tokens.{is_white as is_white_byte};
ghost use Rattle.xdr_decode.specs.Verdict.{IsDataLine};
ghost use Rattle.xdr_decode.specs.inner.Lined.{Behind, EndLines, EndsWhite, IsText, StopsIn, WordLines};

/// Why no line was read.
#[derive(Clone, Copy)]
pub enum LineStop {
    /// The bytes end inside one.
    Cut,
    /// So many bytes stand from the first one on with which they begin none.
    Differs(usize),
}

fn is_white(byte: u8) -> bool
    ensures { result ≡ is_white_byte byte }
{
    byte == b' ' || byte == b'\n' || byte == b'\t' || byte == b'\r'
}

/// The white space at the front, and what stands behind it.
fn split_white(bytes: &[u8]) -> (&[u8], &[u8])
    ensures parts { bytes.now ≡ result.0.now ++ result.1.now }
    ensures white { AllPass is_white_byte result.0.now }
    ensures end { EndsWhite result.1.now }
{
    let size = bytes.iter().take_while(|byte| is_white(**byte)).count();
    bytes.split_at(size)
}

/// What stands behind a text.
fn literal<'a>(bytes: &'a [u8], text: &[u8]) -> Result<&'a [u8], LineStop>
    ensures read { IfOk result (λ rest. bytes.now ≡ text.now ++ rest.now) }
    ensures stop { IfErr result (StopsIn (IsText text.now) bytes.now) }
{
    for (at, byte) in text.iter().enumerate() {
        if at >= bytes.len() {
            return Err(LineStop::Cut);
        }
        if bytes[at] != *byte {
            return Err(LineStop::Differs(bytes.len() - at));
        }
    }
    Ok(&bytes[text.len()..])
}

/// What stands behind a line feed, before which a carriage return may stand.
fn line_end(bytes: &[u8]) -> Result<&[u8], LineStop>
    ensures read { IfOk result (λ rest. Behind EndLines bytes.now rest.now) }
    ensures stop { IfErr result (StopsIn EndLines bytes.now) }
{
    if bytes.is_empty() {
        return Err(LineStop::Cut);
    }
    match bytes[0] {
        b'\n' => Ok(&bytes[1..]),
        b'\r' => literal(bytes, b"\r\n"),
        _ => Err(LineStop::Differs(bytes.len())),
    }
}

/// The same behind the word with its colon.
fn word_line(bytes: &[u8]) -> Result<&[u8], LineStop>
    ensures read { IfOk result (λ rest. Behind WordLines bytes.now rest.now) }
    ensures stop { IfErr result (StopsIn WordLines bytes.now) }
{
    let rest = literal(bytes, b"Data:")?;
    line_end(rest)
}

/// What stands behind the line that begins the bytes.
pub fn data_line(bytes: &[u8]) -> Result<&[u8], LineStop>
    ensures read { IfOk result (λ rest. Behind IsDataLine bytes.now rest.now) }
    ensures stop { IfErr result (StopsIn IsDataLine bytes.now) }
{
    let (_, rest) = split_white(bytes);
    word_line(rest)
}
