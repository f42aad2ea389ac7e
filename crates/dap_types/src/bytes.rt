ghost use Rattle.std.specs.Prelude.{◌≡◌, ℕ, ◌+◌, ◌<◌, ◌≤◌, List, ◌∷◌, ◌++◌, length, IfOk, IfErr, IsOk, string_bytes, is_ok, OnOk};
ghost use Rattle.dap_types.specs.Names.{is_kept_byte, is_hex_digit, upper_case, escaped_byte, begins_with_digits, constraint_id, constraint_id_from, file_id};

use crate::Memory;
use crate::held::Held;
use smallvec::SmallVec;
use std::alloc::Global;
use std::cmp::Ordering;
use std::hash::{Hash, Hasher};
use std::marker::Model;
use viable::hex_digit;

/// Bytes that are kept, as the text of a String. Contracts see them as their list.
#[derive(Debug, Drop)]
pub struct Bytes {
    vec: Vec<u8>,
}

impl Model for Bytes {
    ghost Value = { List ℕ };

    ghost view = { λ b. b.vec.items };
}

impl Bytes {
    /// Keeps a copy of the bytes. Fails where memory is wanted.
    pub fn new(alloc: Global, bytes: &[u8]) -> Result<Bytes, Memory>
        ensures { IfOk result (λ b. b ≡ bytes.now) }
    {
        Ok(Bytes {
            vec: Vec::from_slice(alloc, bytes)?,
        })
    }

    /// The bytes of a vector.
    pub fn from_vec(vec: Vec<u8>) -> Bytes
        ensures { result ≡ vec.items }
    {
        Bytes { vec }
    }

    /// The bytes, in order.
    pub fn bytes(&self) -> &[u8]
        ensures { result.now ≡ self.now }
    {
        self.vec.as_slice()
    }
}

/// The name of a variable or of a dimension (DAP 2.0, identifiers), of any bytes. Contracts see
/// it as its list of bytes.
#[derive(Debug, Drop)]
pub struct Id {
    held: Held,
}

impl Model for Id {
    ghost use Rattle.std.specs.Prelude.{ℕ, List};
    ghost use Rattle.dap_types.specs.Held.{IsHeld, held_bytes};

    ghost Value = { List ℕ };

    ghost view = { λ id. held_bytes id.held };

    ghost invariant = { λ id. IsHeld id.held };
}

impl PartialEq for Id {
    ghost use Rattle.std.proofs.Common.{rules};
    ghost use Rattle.std.specs.Cmp.Rules.{comparing};
    ghost use Rattle.std.specs.Str.{bytes_eq};

    ghost eq = { bytes_eq };

    ghost laws = { Prim.search (comparing, rules) };

    fn eq(&self, other: &Id) -> bool {
        self.bytes() == other.bytes()
    }
}

impl Eq for Id {
    ghost use Rattle.std.proofs.Common.{rules};
    ghost use Rattle.std.specs.Cmp.Rules.{comparing};

    ghost laws = { Prim.search (comparing, rules) };
}

impl PartialOrd for Id {
    ghost use Rattle.std.proofs.Common.{rules};
    ghost use Rattle.std.specs.Cmp.Rules.{comparing};
    ghost use Rattle.std.specs.Cmp.Lexicographic.{slice_cmp};
    ghost use Rattle.std.specs.Ordering.{as_partial_cmp, nat_cmp};
    ghost use Rattle.std.specs.Cmp.{partial_order_from_own_ties};

    ghost partial_cmp = { as_partial_cmp (slice_cmp nat_cmp) };

    ghost laws = { partial_order_from_own_ties (Prim.search (comparing, rules)) (Prim.search (comparing, rules)) };

    fn partial_cmp(&self, other: &Id) -> Option<Ordering> {
        Some(self.cmp(other))
    }
}

/// Names are in the order of their bytes.
impl Ord for Id {
    ghost use Rattle.std.proofs.Common.{rules, refl};
    ghost use Rattle.std.specs.Cmp.Rules.{comparing};
    ghost use Rattle.std.specs.Cmp.Lexicographic.{slice_cmp};
    ghost use Rattle.std.specs.Ordering.{nat_cmp};

    ghost cmp = { slice_cmp nat_cmp };

    ghost total = { Prim.search (comparing, rules) };

    ghost matches_partial_cmp = { λ x y. refl };

    ghost matches_eq = { Prim.search (comparing, rules) };

    fn cmp(&self, other: &Id) -> Ordering {
        self.bytes().cmp(other.bytes())
    }
}

impl Hash for Id {
    ghost use Rattle.std.proofs.Common.{rules};
    ghost use Rattle.std.specs.Cmp.Rules.{hashing};
    ghost use Rattle.std.specs.Hash as fed;

    ghost hash_input = { fed.str };

    ghost respects_eq = { Prim.search (hashing, rules) };

    // All bytes at once, as those of a text.
    fn hash<H: Hasher>(&self, state: &mut H) {
        state.write(self.bytes());
        state.write_u8(0xff);
    }
}

impl Id {
    /// The name of exactly these bytes. Fails where memory is wanted.
    pub fn raw(alloc: Global, bytes: &[u8]) -> Result<Id, Memory>
        ensures { IfOk result (λ b. b ≡ bytes.now) }
    {
        Ok(Id {
            held: Held::new(alloc, bytes)?,
        })
    }

    /// The name of a variable that a file names so: each byte other than a letter, a digit and
    /// `_ - + * /` becomes `%` and two hexadecimal digits (DAP 2.0, names of variables).
    /// Fails where memory is wanted.
    pub fn of_file(alloc: Global, bytes: &[u8]) -> Result<Id, Memory>
        ensures { IfOk result (λ b. b ≡ file_id bytes.now) }
    {
        let name = file_name(alloc, bytes)?;
        Id::raw(alloc, name.as_slice())
    }

    /// The name of a variable that a constraint spells so: as `of_file`, but a `%` with two
    /// hexadecimal digits behind it stays, and the digits become upper case (DAP 2.0, constraint
    /// expressions). Fails where memory is wanted.
    pub fn of_constraint(alloc: Global, bytes: &[u8]) -> Result<Id, Memory>
        ensures { IfOk result (λ b. b ≡ constraint_id bytes.now) }
    {
        let name = constraint_name(alloc, bytes)?;
        Id::raw(alloc, name.as_slice())
    }

    /// The same name once more. A name that does not stand in place is shared, so this takes no
    /// memory; it fails where more copies stand than can be counted.
    #[inline]
    pub fn try_clone(&self) -> Result<Id, Memory>
        ensures { IfOk result (λ id. id ≡ self.now) }
    {
        Ok(Id {
            held: self.held.try_clone()?,
        })
    }

    /// The bytes, in order.
    #[inline]
    pub fn bytes(&self) -> &[u8]
        ensures { result.now ≡ self.now }
    {
        self.held.bytes()
    }
}

/// The bytes of an escaped name up to which it is made without an allocation.
const ON_STACK: usize = 96;

fn is_kept(byte: u8) -> bool
    ensures { result ≡ is_kept_byte byte }
{
    byte.is_ascii_alphanumeric()
        || byte == b'_'
        || byte == b'-'
        || byte == b'+'
        || byte == b'*'
        || byte == b'/'
}

fn is_hex(byte: u8) -> bool
    ensures { result ≡ is_hex_digit byte }
{
    (byte >= b'0' && byte <= b'9')
        || (byte >= b'A' && byte <= b'F')
        || (byte >= b'a' && byte <= b'f')
}

fn upper(byte: u8) -> u8
    ensures { result ≡ upper_case byte }
{
    if byte >= b'a' && byte <= b'z' {
        byte - 32
    } else {
        byte
    }
}

fn is_escape(bytes: &[u8]) -> bool
    ensures { result ≡ begins_with_digits bytes.now }
{
    match bytes {
        [a, b, ..] => is_hex(*a) && is_hex(*b),
        _ => false,
    }
}

fn push_escaped(out: &mut SmallVec<u8, ON_STACK>, byte: u8) -> Result<(), Memory>
    ensures { OnOk result (out.new.items ≡ out.old.items ++ escaped_byte byte) }
{
    if is_kept(byte) {
        out.push(byte)?;
        return Ok(());
    }
    out.push(b'%')?;
    out.push(hex_digit(byte / 16, true))?;
    out.push(hex_digit(byte % 16, true))?;
    Ok(())
}

/// Pushes what the next byte becomes. Before it `left` digits of an escape were still to come, and
/// after it as many as the answer.
#[tactic(auto, using(crate::proofs::Escapes::escape_laws))]
fn push_next(
    out: &mut SmallVec<u8, ON_STACK>,
    left: usize,
    byte: u8,
    rest: &[u8],
) -> Result<usize, Memory>
    ensures { IfOk result (λ next. out.new.items ++ constraint_id_from next rest.now ≡ out.old.items ++ constraint_id_from left (byte ∷ rest.now)) }
{
    if left > 0 {
        out.push(upper(byte))?;
        return Ok(left - 1);
    }
    if byte == b'%' && is_escape(rest) {
        out.push(b'%')?;
        return Ok(2);
    }
    push_escaped(out, byte)?;
    Ok(0)
}

fn file_name(alloc: Global, bytes: &[u8]) -> Result<SmallVec<u8, ON_STACK>, Memory>
    ensures { IfOk result (λ v. v.items ≡ file_id bytes.now) }
{
    let mut out = SmallVec::new(alloc);
    for byte in bytes {
        push_escaped(&mut out, *byte)?;
    }
    Ok(out)
}

fn constraint_name(alloc: Global, bytes: &[u8]) -> Result<SmallVec<u8, ON_STACK>, Memory>
    ensures { IfOk result (λ v. v.items ≡ constraint_id bytes.now) }
{
    let mut out = SmallVec::new(alloc);
    let mut left = 0usize;
    for (i, byte) in bytes.iter().enumerate() {
        left = push_next(&mut out, left, *byte, &bytes[i + 1..])?;
    }
    Ok(out)
}

/// A text of characters, as a word of a command line or the name of a file. Contracts see its
/// list of bytes.
#[derive(Debug, Drop)]
pub struct Name {
    string: String,
}

impl Model for Name {
    ghost Value = { List ℕ };

    ghost view = { λ n. string_bytes n.string };
}

impl Name {
    /// Keeps a copy of the text. Fails where memory is wanted.
    pub fn new(alloc: Global, text: &str) -> Result<Name, Memory>
        ensures { IfOk result (λ n. n ≡ text.now) }
    {
        Ok(Name {
            string: String::from_str(alloc, text)?,
        })
    }

    /// The text.
    pub fn as_str(&self) -> &str
        ensures { result.now ≡ self.now }
    {
        self.string.as_str()
    }
}
