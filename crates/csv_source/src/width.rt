//! How many fields the first record of a file has, told without keeping any of them: the record of a
//! file that is commas alone would take eight bytes for each.

ghost use Rattle.std.specs.Prelude.{◌≡◌, ◌<◌, ℕ};
ghost use Rattle.csv.specs.Reading.{strip_bom};
ghost use Rattle.csv_source.specs.Csv.{csv_records};
ghost use Rattle.csv_source.specs.inner.Width.{IsStep, TellsWidth, state_of};

use dap_types::limits;

/// The most columns of a table.
const MOST_COLUMNS: u32 = limits::MOST_COLUMNS;

/// Where the bytes of a record end so far (RFC 4180).
#[derive(Clone, Copy, Drop)]
enum Place {
    /// Before its first field.
    Front,
    /// Before another field.
    Comma,
    /// In a field without quotes, or behind one with quotes.
    Field,
    /// Between two quotes.
    Quoted,
    /// Behind a quote that ends a field, or is the first of two that stand for one.
    Quote,
}

/// What the next byte of a record is.
#[derive(Clone, Copy, Drop)]
enum Next {
    /// Part of a field, or of nothing.
    Within(Place),
    FieldEnd,
    RecordEnd,
}

fn in_field(byte: u8) -> Next
    ensures { IsStep (state_of Place.Field) byte result }
{
    match byte {
        b',' => Next::FieldEnd,
        b'\r' | b'\n' => Next::RecordEnd,
        _ => Next::Within(Place::Field),
    }
}

fn before_field(byte: u8) -> Next
    ensures { IsStep (state_of Place.Comma) byte result }
{
    if byte == b'"' {
        return Next::Within(Place::Quoted);
    }
    in_field(byte)
}

fn before_record(byte: u8) -> Next
    ensures { IsStep (state_of Place.Front) byte result }
{
    if byte == b'\r' || byte == b'\n' {
        return Next::Within(Place::Front);
    }
    before_field(byte)
}

fn between_quotes(byte: u8) -> Next
    ensures { IsStep (state_of Place.Quoted) byte result }
{
    if byte == b'"' {
        return Next::Within(Place::Quote);
    }
    Next::Within(Place::Quoted)
}

fn behind_quote(byte: u8) -> Next
    ensures { IsStep (state_of Place.Quote) byte result }
{
    if byte == b'"' {
        return Next::Within(Place::Quoted);
    }
    in_field(byte)
}

/// What a byte is behind those of a record so far.
fn step(place: Place, byte: u8) -> Next
    ensures { IsStep (state_of place) byte result }
{
    match place {
        Place::Front => before_record(byte),
        Place::Comma => before_field(byte),
        Place::Field => in_field(byte),
        Place::Quoted => between_quotes(byte),
        Place::Quote => behind_quote(byte),
    }
}

/// The bytes behind a byte order mark, if there is one.
fn without_mark(bytes: &[u8]) -> &[u8]
    ensures { result.now ≡ strip_bom bytes.now }
{
    if bytes.len() >= 3 && bytes[0] == 0xef && bytes[1] == 0xbb && bytes[2] == 0xbf {
        return &bytes[3..];
    }
    bytes
}

/// Whether the first record of a file has more fields than a table has columns.
pub(crate) fn is_too_wide(bytes: &[u8]) -> bool
    ensures { TellsWidth result (csv_records bytes.now) }
{
    let text = without_mark(bytes);
    let mut place = Place::Front;
    let mut ended = 0u32;
    for byte in text {
        match step(place, *byte) {
            Next::Within(then) => place = then,
            Next::FieldEnd => {
                ended += 1;
                if ended == MOST_COLUMNS {
                    return true;
                }
                place = Place::Comma;
            }
            Next::RecordEnd => return false,
        }
    }
    false
}
