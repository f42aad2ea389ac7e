//! Where runs of bytes end.

ghost use Rattle.std.specs.Prelude.{◌≡◌, ℕ, ◌+◌, ◌<◌, ◌≤◌, List, length, slice_index, MatchBool};
ghost use Rattle.std.specs.List.{list_all};
ghost use Rattle.constraint_parse.specs.Language.{is_blank, is_digit, is_name_byte};
ghost use Rattle.viable.specs.Runs.{is_run, IsRunTo};
ghost use Rattle.constraint_parse.specs.inner.Machine.{State};
ghost use Rattle.constraint_parse.specs.inner.Standing.{StandsAt, IsPlace, Lacks};
ghost use Rattle.constraint_parse.specs.Classes.{class_test};

/// A class of bytes.
#[derive(Clone, Copy)]
pub enum Class {
    Name,
    Digit,
    Word,
    Argument,
}

fn is_name(byte: u8) -> bool
    ensures { result ≡ is_name_byte byte }
{
    byte > 32 && byte != 127 && !b",&.[]{}()<>=!~\":;".contains(&byte)
}

fn is_in(class: Class, byte: u8) -> bool
    ensures { result ≡ class_test class byte }
{
    match class {
        Class::Name => is_name(byte),
        Class::Digit => is_digit_byte(byte),
        Class::Word => is_name(byte) || byte == b'.' || byte == b':',
        Class::Argument => !(byte == b'(' || byte == b')'),
    }
}

/// Whether this byte stands at the place.
pub fn is_at(text: &[u8], at: usize, byte: u8) -> bool
    ensures { MatchBool result ((at < length text.now) × (slice_index text.now at ≡ byte)) (Lacks text.now at byte) }
{
    at < text.len() && text[at] == byte
}

fn is_digit_byte(byte: u8) -> bool
    ensures { result ≡ is_digit byte }
{
    byte >= b'0' && byte <= b'9'
}

fn each_digit(bytes: &[u8]) -> bool
    ensures { result ≡ list_all is_digit bytes.now }
{
    bytes.iter().all(|byte| is_digit_byte(*byte))
}

/// Whether there is a digit, and nothing else.
#[tactic(auto, using(viable::proofs::Runs::run_laws))]
pub fn all_digits(bytes: &[u8]) -> bool
    ensures { result ≡ is_run is_digit bytes.now }
{
    if bytes.is_empty() {
        return false;
    }
    each_digit(bytes)
}

fn is_blank_byte(byte: u8) -> bool
    ensures { result ≡ is_blank byte }
{
    byte == b'\t' || byte == b' '
}

/// Where the longest run of bytes of a class ends that begins at a place.
pub fn run_end(class: Class, text: &[u8], from: usize) -> usize
    requires { from ≤ length text.now }
    ensures within { (from ≤ result) × (result ≤ length text.now) }
    ensures run { (run : List ℕ) × IsRunTo (class_test class) text.now from result run }
{
    let mut to = from;
    while to < text.len() && is_in(class, text[to]) {
        to += 1;
    }
    to
}

/// The first place from `from` on that holds no blank.
pub fn skip_blanks(text: &[u8], from: usize) -> usize
    requires { from ≤ length text.now }
    ensures onward { from ≤ result }
    ensures place { IsPlace text.now result }
    ensures stands { (s : State) → StandsAt text.now from s → StandsAt text.now result s }
{
    let mut at = from;
    while at < text.len() && is_blank_byte(text[at]) {
        at += 1;
    }
    at
}
