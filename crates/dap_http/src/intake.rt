ghost use Rattle.std.specs.Prelude.{◌≡◌, ◌+◌, ◌≤◌, ◌<◌, ◌++◌, ℕ, List, drop, length, vec_len, vec_capacity, false, IsTrue, IfOk, OnErr};
ghost use Rattle.std.specs.Io.KnownBytes.{Consumes, IsAtEnd};
ghost use Rattle.std.specs.Prelude.{◌==◌};
ghost use Rattle.std.specs.List.{list_any};
ghost use Rattle.dap_outside.specs.Causes.{HasCause};
ghost use Rattle.dap_http.specs.Requests.{feeds};

use dap_outside::{Failed, Source};

const PIECE: usize = 4096;

/// Takes some bytes more behind those that are kept, up to `most` of them, and answers how many; 0
/// says that nothing is left. Fails only where the count of faults rose, and then nothing was taken.
pub fn take_more<I: Source>(
    kept: &mut Vec<u8>,
    source: &mut I,
    most: usize,
) -> Result<usize, Failed>
    requires short { length kept.old.items < most }
    requires room { most ≤ vec_capacity kept.old }
    ensures takes { (x : List ℕ) × Consumes (I.left source.old) (I.left source.new) x × (kept.new.items ≡ kept.old.items ++ x) }
    ensures most { length kept.new.items ≤ most }
    ensures count { IfOk result (λ n. length kept.new.items ≡ length kept.old.items + n) }
    ensures end { IfOk result (λ n. n ≡ 0 → IsTrue (I.ended source.new) × IsAtEnd (I.left source.new)) }
    ensures room { most ≤ vec_capacity kept.new }
    ensures err { OnErr result (kept.new.items ≡ kept.old.items) }
    ensures stays { IsTrue (I.ended source.old) → IsTrue (I.ended source.new) }
    ensures cause { HasCause (I.take_faults source.old) (I.take_faults source.new) result }
    ensures whole { I.whole source.new ≡ I.whole source.old }
    ensures beside { I.beside_reading source.new ≡ I.beside_reading source.old }
{
    let mut piece = [0; PIECE];
    let wanted = PIECE.min(most - kept.len());
    let count = source.take(&mut piece[..wanted])?;
    keep(kept, &piece[..count]);
    Ok(count)
}

/// Takes more bytes behind those that are kept, up to a piece with a line feed, to `most` of them or to
/// the end, and answers how many; 0 says that nothing is left. Fails only where the count of faults
/// rose; what was taken before has no line feed.
pub fn take_line<I: Source>(
    kept: &mut Vec<u8>,
    source: &mut I,
    most: usize,
) -> Result<usize, Failed>
    requires short { length kept.old.items < most }
    requires room { most ≤ vec_capacity kept.old }
    ensures takes { (x : List ℕ) × Consumes (I.left source.old) (I.left source.new) x × (kept.new.items ≡ kept.old.items ++ x) }
    ensures most { length kept.new.items ≤ most }
    ensures count { IfOk result (λ n. length kept.new.items ≡ length kept.old.items + n) }
    ensures end { IfOk result (λ n. n ≡ 0 → IsTrue (I.ended source.new) × IsAtEnd (I.left source.new)) }
    ensures room { most ≤ vec_capacity kept.new }
    ensures err { OnErr result (feeds kept.new.items ≡ feeds kept.old.items) }
    ensures stays { IsTrue (I.ended source.old) → IsTrue (I.ended source.new) }
    ensures cause { HasCause (I.take_faults source.old) (I.take_faults source.new) result }
    ensures whole { I.whole source.new ≡ I.whole source.old }
    ensures beside { I.beside_reading source.new ≡ I.beside_reading source.old }
{
    let before = kept.len();
    loop {
        let at = kept.len();
        take_more(kept, source, most)?;
        if is_enough(kept.as_slice(), at, most) {
            return Ok(kept.len() - before);
        }
    }
}

/// Whether the bytes from a place on are none or hold a line feed, or all of them are as many as can be.
fn is_enough(kept: &[u8], at: usize, most: usize) -> bool
    requires { at ≤ length kept.now }
    ensures some { result ≡ false → at < length kept.now }
    ensures room { result ≡ false → length kept.now < most }
    ensures plain { result ≡ false → feeds (drop at kept.now) ≡ 0 }
{
    at == kept.len() || kept.len() >= most || has_feed(behind(kept, at))
}

fn has_feed(bytes: &[u8]) -> bool
    ensures { result ≡ list_any (λ b. b == 10) bytes.now }
{
    bytes.iter().any(|b| *b == b'\n')
}

/// Appends bytes for which there is room.
pub fn keep(kept: &mut Vec<u8>, bytes: &[u8])
    requires { length kept.old.items + length bytes.now ≤ vec_capacity kept.old }
    ensures items { kept.new.items ≡ kept.old.items ++ bytes.now }
    ensures room { vec_capacity kept.old ≤ vec_capacity kept.new }
{
    match kept.extend_from_slice(bytes) {
        Ok(()) => {}
        Err(_) => unreachable!(),
    }
}

/// Drops bytes from the front of those that are kept.
pub fn skip(kept: &mut Vec<u8>, count: usize)
    requires { count ≤ vec_len kept.old }
    ensures items { kept.new.items ≡ drop count kept.old.items }
    ensures room { vec_capacity kept.new ≡ vec_capacity kept.old }
{
    let left = kept.len() - count;
    kept.copy_within(count.., 0);
    kept.truncate(left);
}

/// The bytes from a place on.
pub fn behind(kept: &[u8], at: usize) -> &[u8]
    requires { at ≤ length kept.now }
    ensures { result.now ≡ drop at kept.now }
{
    &kept[at..]
}
