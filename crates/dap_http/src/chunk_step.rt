ghost use Rattle.std.specs.Prelude.{◌≡◌, ◌<◌, ◌≤◌, IsTrue};
ghost use Rattle.dap_http.specs.inner.Steps.{behind_line, is_number, is_start, step, stops, step_blanks, step_digits, step_text, step_trailer};

use dap_types::limits;

/// What a reader of the chunked coding knows of the line, the line end or the bytes that it stands in.
#[derive(Clone, Copy, Debug)]
pub enum At {
    /// No byte of a chunk line.
    Line,
    /// So many digits of a chunk line, and the number that they write.
    Digits(u32, u64),
    /// So many bytes of a chunk line with its digits and some blanks, and its number.
    Blanks(u32, u64),
    /// The same, in its extension.
    Extension(u32, u64),
    /// A chunk line of that number, but for its line feed.
    LineFeed(u64),
    /// So many bytes of a chunk are to come.
    Data(u64),
    /// All of them have come.
    EndCr,
    /// And the first byte of the line end.
    EndLf,
    /// Whole trailer lines, with room for so many bytes.
    Fresh(u32),
    /// A part of one, which does not end with a carriage return.
    Trailer(u32),
    /// The first byte of one, which is a carriage return.
    EmptyCr(u32),
    /// A part of one, which ends with a carriage return.
    TrailerCr(u32),
    /// The body has ended.
    Done,
    /// A byte did not fit.
    Bad,
}

fn step_text(n: u32, size: u64, byte: u8) -> At
    ensures step { result ≡ step_text n size byte }
    ensures number { IsTrue (is_number result) }
{
    if byte == b'\r' {
        return At::LineFeed(size);
    }
    if byte == b'\n' || n > 1021 {
        return At::Bad;
    }
    At::Extension(n + 1, size)
}

fn step_blanks(n: u32, size: u64, byte: u8) -> At
    ensures step { result ≡ step_blanks n size byte }
    ensures number { IsTrue (is_number result) }
{
    if byte == b'\r' {
        return At::LineFeed(size);
    }
    if n > 1021 {
        return At::Bad;
    }
    if byte == b' ' || byte == b'\t' {
        return At::Blanks(n + 1, size);
    }
    if byte == b';' {
        return At::Extension(n + 1, size);
    }
    At::Bad
}

fn step_digits(n: u32, size: u64, byte: u8) -> At
    requires { IsTrue (is_number (At.Digits n size)) }
    ensures step { result ≡ step_digits n size byte }
    ensures number { IsTrue (is_number result) }
{
    match (byte as char).to_digit(16) {
        Some(digit) => {
            if n < 8 {
                return At::Digits(n + 1, size * 16 + digit as u64);
            }
            At::Bad
        }
        None => step_blanks(n, size, byte),
    }
}

fn step_trailer(room: u32, byte: u8, cr: At) -> At
    requires { IsTrue (is_number cr) }
    ensures step { result ≡ step_trailer room byte cr }
    ensures number { IsTrue (is_number result) }
{
    if byte == b'\r' {
        if room < 2 {
            return At::Bad;
        }
        return cr;
    }
    if room < 3 {
        return At::Bad;
    }
    At::Trailer(room - 1)
}

fn behind_line(size: u64) -> At
    ensures step { result ≡ behind_line size }
    ensures number { IsTrue (is_number result) }
{
    if size == 0 {
        return At::Fresh(limits::MOST_TRAILERS);
    }
    At::Data(size)
}

impl At {
    /// What is known behind one more byte.
    pub fn step(self, byte: u8) -> At
        requires { IsTrue (is_number self) }
        ensures step { result ≡ step self byte }
        ensures number { IsTrue (is_number result) }
    {
        match self {
            At::Line => match (byte as char).to_digit(16) {
                Some(digit) => At::Digits(1, digit as u64),
                None => At::Bad,
            },
            At::Digits(n, size) => step_digits(n, size, byte),
            At::Blanks(n, size) => step_blanks(n, size, byte),
            At::Extension(n, size) => step_text(n, size, byte),
            At::LineFeed(size) => {
                if byte != b'\n' {
                    return At::Bad;
                }
                behind_line(size)
            }
            At::Data(left) => {
                if left <= 1 {
                    return At::EndCr;
                }
                At::Data(left - 1)
            }
            At::EndCr => {
                if byte != b'\r' {
                    return At::Bad;
                }
                At::EndLf
            }
            At::EndLf => {
                if byte != b'\n' {
                    return At::Bad;
                }
                At::Line
            }
            At::Fresh(room) => step_trailer(room, byte, At::EmptyCr(room.saturating_sub(1))),
            At::Trailer(room) => step_trailer(room, byte, At::TrailerCr(room.saturating_sub(1))),
            At::EmptyCr(room) => {
                if byte == b'\n' {
                    return At::Done;
                }
                step_trailer(room, byte, At::TrailerCr(room.saturating_sub(1)))
            }
            At::TrailerCr(room) => {
                if byte == b'\n' {
                    return At::Fresh(room.saturating_sub(1));
                }
                step_trailer(room, byte, At::TrailerCr(room.saturating_sub(1)))
            }
            At::Done => At::Done,
            At::Bad => At::Bad,
        }
    }

    /// Whether a line, a line end or the bytes of a chunk begin here.
    pub fn is_start(self) -> bool
        ensures { result ≡ is_start self }
    {
        match self {
            At::Line | At::Data(_) | At::EndCr | At::Fresh(_) => true,
            At::Digits(_, _)
            | At::Blanks(_, _)
            | At::Extension(_, _)
            | At::LineFeed(_)
            | At::EndLf
            | At::Trailer(_)
            | At::EmptyCr(_)
            | At::TrailerCr(_)
            | At::Done
            | At::Bad => false,
        }
    }

    /// Whether reading stops: at bytes of a chunk, at the end, or at a fault.
    pub fn stops(self) -> bool
        ensures { result ≡ stops self }
    {
        matches!(self, At::Data(_) | At::Done | At::Bad)
    }
}
