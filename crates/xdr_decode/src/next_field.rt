ghost use Rattle.std.specs.Prelude.{◌≡◌, ℕ, ◌+◌, ◌-◌, ◌^◌, ◌<◌, ◌≤◌, List, [], ◌∷◌, ◌++◌, length, min, take, IfOk, IfSome, IfNone, OnOk, Ok};
ghost use Rattle.arrayvec.specs.ArrayVec.{array_vec_len};
ghost use Rattle.std.specs.List.{flat_map};
ghost use Rattle.dap_model.specs.Shown.{shown_byte};
ghost use Rattle.dap_model.specs.Xdr.{Field, SpellsField};
ghost use Rattle.dap_outside.specs.Causes.{HasCause};
ghost use Rattle.dap_types.specs.View.{members_view};
ghost use Rattle.xdr_fields.specs.Wants.{Goes, Want, says};
ghost use Rattle.xdr_decode.specs.After.{dataset_of, place_of, start_of};
ghost use Rattle.xdr_decode.specs.inner.Asked.{Asks, Is, IsElement, width_of};
ghost use Rattle.dap_outside.specs.Buffered.{Puts};
ghost use Rattle.xdr_decode.specs.inner.Places.{IsPlaced, text_behind, wants_left};
ghost use Rattle.xdr_decode.specs.inner.Turning.{Falls, MayBeEmpty, Stays, Turns, rank, weight};

use crate::BadField;
use crate::decoder::Decoder;
use crate::field::{Ask, Token, judge};
use crate::line::{put_path, put_value};
use crate::place::{Next, Place, Text};
use crate::value_text::put_escaped;
use arrayvec::ArrayVec;
use dap_outside::{Buffer, Failed, Sink};
use dap_types::Decl;

/// How far a decoder came with the next field, or with the bytes of a string.
#[derive(Clone, Copy)]
pub enum Turn {
    /// It is whole, with so many bytes of the piece.
    Went(usize),
    /// None comes: the values are ended.
    Ended,
    /// The piece ends before it does.
    Short,
    /// It is bad.
    Bad(BadField),
}

/// Takes up the rest of a field of so many bytes, where the piece has it, and answers how many these are.
pub fn collect(held: &mut ArrayVec<u8, 8>, width: usize, rest: &[u8]) -> Option<usize>
    ensures most { IfSome result (λ count. count ≤ length rest.now) }
    ensures width { IfSome result (λ count. length held.old.items + count ≡ width) }
    ensures whole { IfSome result (λ count. held.new.items ≡ held.old.items ++ take count rest.now) }
    ensures part { IfNone result (width ≤ 8 → length held.old.items ≤ width → held.new.items ≡ held.old.items ++ rest.now) }
    ensures short { IfNone result (width ≤ 8 → length held.old.items ≤ width → length held.new.items < width) }
    ensures room { IfNone result (length held.new.items ≤ length held.old.items + length rest.now) }
{
    let count = width.saturating_sub(held.len()).min(rest.len());
    if held.try_extend_from_slice(&rest[..count]).is_err() {
        return None;
    }
    if held.len() != width {
        return None;
    }
    Some(count)
}

/// Puts the line of an element, or its front up to the bytes of a text.
fn put_element<O: Sink>(
    buffer: &mut Buffer,
    out: &mut O,
    decls: &[Decl],
    place: &Place,
    token: Token,
) -> Result<(), Failed>
    ensures puts { (ask : Ask) (w : Want) (ws : List Want) (f : Field) → IsPlaced (members_view decls.now) place.now → wants_left (members_view decls.now) place.now ≡ w ∷ ws →
        IsElement ask → Asks ask w → Goes w f → Is token f → Puts (O.written out.old) buffer.old.bytes.items (O.written out.new) buffer.new.bytes.items result (says w f) }
    ensures cause { HasCause (O.put_faults out.old) (O.put_faults out.new) result }
    ensures beside { O.beside_writing out.new ≡ O.beside_writing out.old }
{
    put_path(buffer, out, decls, place.path(), place.stage())?;
    put_value(buffer, out, token)
}

/// Puts what is shown of a field that was read.
fn put_token<O: Sink>(
    buffer: &mut Buffer,
    out: &mut O,
    decls: &[Decl],
    place: &Place,
    ask: Ask,
    token: Token,
) -> Result<(), Failed>
    ensures puts { (w : Want) (ws : List Want) (f : Field) → IsPlaced (members_view decls.now) place.now → wants_left (members_view decls.now) place.now ≡ w ∷ ws →
        Asks ask w → Goes w f → Is token f → Puts (O.written out.old) buffer.old.bytes.items (O.written out.new) buffer.new.bytes.items result (says w f) }
    ensures cause { HasCause (O.put_faults out.old) (O.put_faults out.new) result }
    ensures beside { O.beside_writing out.new ≡ O.beside_writing out.old }
{
    match ask {
        Ask::Value(_) => put_element(buffer, out, decls, place, token),
        Ask::Packed => put_element(buffer, out, decls, place, token),
        Ask::Padding(_) => buffer.put(out, b"\"\n"),
        Ask::Count(_) => Ok(()),
        Ask::Filler(_) => Ok(()),
        Ask::Mark => Ok(()),
    }
}

impl Decoder {
    /// The field that is held was read.
    pub(crate) fn step(&mut self, ask: Ask, token: Token)
        ensures stays { (bytes put : List ℕ) (w : Want) (ws : List Want) (f : Field) → Stays self.old bytes put → wants_left (dataset_of self.old).members self.old.place ≡ w ∷ ws →
            Asks ask w → Goes w f → SpellsField f self.old.held.items → Is token f → length self.old.held.items ≡ width_of ask → place_of self.old < 2 ^ 63 → Stays self.new bytes (put ++ says w f) }
        ensures falls { (width_of ask ≡ 0 → MayBeEmpty (dataset_of self.old).members self.old.place × (token ≡ Token.Zeros)) → length self.old.held.items ≡ width_of ask → weight self.new < weight self.old }
        ensures place { length self.old.held.items ≡ width_of ask → place_of self.new ≤ place_of self.old }
        ensures dataset { dataset_of self.new ≡ dataset_of self.old }
        ensures start { start_of self.new ≡ start_of self.old }
    {
        self.place.step(self.dataset.members.items(), token);
        self.taken = self.taken.saturating_add(ask.width() as u64);
        self.held.clear();
    }

    /// Reads the next field of the rest of a piece.
    fn field<O: Sink>(
        &mut self,
        ask: Ask,
        rest: &[u8],
        buffer: &mut Buffer,
        out: &mut O,
    ) -> Result<Turn, Failed>
        ensures turns { (bytes put : List ℕ) (w : Want) (ws : List Want) → Stays self.old bytes put → wants_left (dataset_of self.old).members self.old.place ≡ w ∷ ws → Asks ask w →
            place_of self.old + length rest.now < 2 ^ 63 → Turns (O.written out.old) buffer.old.bytes.items (O.written out.new) buffer.new.bytes.items self.new rest.now bytes put result }
        ensures falls { (width_of ask ≡ 0 → MayBeEmpty (dataset_of self.old).members self.old.place) → Falls self.old self.new rest.now result }
        ensures dataset { dataset_of self.new ≡ dataset_of self.old }
        ensures start { start_of self.new ≡ start_of self.old }
        ensures cause { HasCause (O.put_faults out.old) (O.put_faults out.new) result }
        ensures beside { O.beside_writing out.new ≡ O.beside_writing out.old }
    {
        let count = match collect(&mut self.held, ask.width(), rest) {
            Some(count) => count,
            None => return Ok(Turn::Short),
        };
        match judge(ask, self.held.as_slice()) {
            Ok(token) => {
                put_token(
                    buffer,
                    out,
                    self.dataset.members.items(),
                    &self.place,
                    ask,
                    token,
                )?;
                self.step(ask, token);
                Ok(Turn::Went(count))
            }
            Err(kind) => Ok(Turn::Bad(BadField {
                kind,
                place: self.taken,
            })),
        }
    }

    /// So many bytes of a string were read.
    pub(crate) fn skip(&mut self, count: u32)
        ensures stays { (bytes put piece : List ℕ) (left size : ℕ) → Stays self.old bytes put → self.old.place.text ≡ Text.Bytes left size → length piece ≡ count → count ≤ left →
            place_of self.old + count < 2 ^ 63 → Stays self.new (bytes ++ piece) (put ++ flat_map shown_byte piece) }
        ensures rank { (left size : ℕ) → self.old.place.text ≡ Text.Bytes left size → count ≡ left → weight self.new < weight self.old }
        ensures text { self.new.place.text ≡ text_behind count self.old.place.text }
        ensures place { place_of self.new ≤ place_of self.old + count }
        ensures dataset { dataset_of self.new ≡ dataset_of self.old }
        ensures start { start_of self.new ≡ start_of self.old }
    {
        self.place.skip(count);
        self.taken = self.taken.saturating_add(u64::from(count));
    }

    /// Reads bytes of a string, of which so many are still to come.
    fn string<O: Sink>(
        &mut self,
        left: u32,
        rest: &[u8],
        buffer: &mut Buffer,
        out: &mut O,
    ) -> Result<Turn, Failed>
        ensures turns { (bytes put : List ℕ) (size : ℕ) → Stays self.old bytes put → self.old.place.text ≡ Text.Bytes left size → place_of self.old + length rest.now < 2 ^ 63 →
            Turns (O.written out.old) buffer.old.bytes.items (O.written out.new) buffer.new.bytes.items self.new rest.now bytes put result }
        ensures falls { (size : ℕ) → self.old.place.text ≡ Text.Bytes left size → Falls self.old self.new rest.now result }
        ensures dataset { dataset_of self.new ≡ dataset_of self.old }
        ensures start { start_of self.new ≡ start_of self.old }
        ensures cause { HasCause (O.put_faults out.old) (O.put_faults out.new) result }
        ensures beside { O.beside_writing out.new ≡ O.beside_writing out.old }
    {
        let count = rest.len().min(left as usize);
        put_escaped(buffer, out, &rest[..count])?;
        self.skip(count as u32);
        if count < left as usize {
            return Ok(Turn::Short);
        }
        Ok(Turn::Went(count))
    }

    /// Reads what comes next in the rest of a piece: a field, or bytes of a string.
    pub(crate) fn turn<O: Sink>(
        &mut self,
        rest: &[u8],
        buffer: &mut Buffer,
        out: &mut O,
    ) -> Result<Turn, Failed>
        ensures turns { (bytes put : List ℕ) → Stays self.old bytes put → place_of self.old + length rest.now < 2 ^ 63 →
            Turns (O.written out.old) buffer.old.bytes.items (O.written out.new) buffer.new.bytes.items self.new rest.now bytes put result }
        ensures falls { Falls self.old self.new rest.now result }
        ensures dataset { dataset_of self.new ≡ dataset_of self.old }
        ensures start { start_of self.new ≡ start_of self.old }
        ensures cause { HasCause (O.put_faults out.old) (O.put_faults out.new) result }
        ensures beside { O.beside_writing out.new ≡ O.beside_writing out.old }
    {
        match self.place.next(self.dataset.members.items()) {
            Next::Nothing => Ok(Turn::Ended),
            Next::Bytes(left) => self.string(left, rest, buffer, out),
            Next::Field(ask) => self.field(ask, rest, buffer, out),
        }
    }
}
