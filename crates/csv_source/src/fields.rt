//! Fields that are kept: all their bytes in one text, and four bytes for each.

ghost use Rattle.std.specs.Prelude.{◌≡◌, ◌<◌, ◌≤◌, ◌+◌, ◌-◌, ◌^◌, ◌++◌, ◌∷◌, [], Some, length, take, drop, slice_get, IfOk, OnOk};
ghost use Rattle.csv_source.specs.inner.Held.{AreEnds, begin_of, fields_in};

use dap_types::Memory;
use std::alloc::{AllocError, Global};

/// Fields one behind the other: the bytes of all of them, and the place where each ends.
#[derive(Drop)]
pub(crate) struct Fields {
    pub(crate) text: Vec<u8>,
    pub(crate) ends: Vec<u32>,
}

impl Fields {
    /// No fields, with room for the bytes of some.
    pub(crate) fn with_room(alloc: Global, bytes: usize) -> Result<Fields, AllocError>
        ensures text { IfOk result (λ f. f.text.items ≡ []) }
        ensures ends { IfOk result (λ f. f.ends.items ≡ []) }
    {
        Ok(Fields {
            text: Vec::with_capacity(alloc, bytes)?,
            ends: Vec::new(alloc),
        })
    }

    /// Puts a field behind the others.
    pub(crate) fn push(&mut self, field: &[u8]) -> Result<(), Memory>
        requires are_ends { AreEnds 0 self.old.ends.items (length self.old.text.items) }
        requires short { length self.old.text.items + length field.now < 2 ^ 32 }
        ensures fields { OnOk result (fields_in self.new.ends.items self.new.text.items ≡ fields_in self.old.ends.items self.old.text.items ++ field.now ∷ []) }
        ensures are_ends { OnOk result (AreEnds 0 self.new.ends.items (length self.new.text.items)) }
        ensures length { OnOk result (length self.new.text.items ≡ length self.old.text.items + length field.now) }
    {
        self.text.extend_from_slice(field)?;
        self.ends.push(self.text.len() as u32)?;
        Ok(())
    }

    /// The field at a place.
    pub(crate) fn get(&self, at: usize) -> &[u8]
        requires are_ends { AreEnds 0 self.now.ends.items (length self.now.text.items) }
        requires at { at < length self.now.ends.items }
        ensures field { slice_get (fields_in self.now.ends.items self.now.text.items) at ≡ Some result.now }
    {
        field_at(&self.text, &self.ends, at)
    }
}

fn field_at<'a>(text: &'a [u8], ends: &[u32], at: usize) -> &'a [u8]
    requires are_ends { AreEnds 0 ends.now (length text.now) }
    requires at { at < length ends.now }
    ensures { slice_get (fields_in ends.now text.now) at ≡ Some result.now }
{
    part(text, begin(ends, at) as usize, ends[at] as usize)
}

fn part(text: &[u8], start: usize, end: usize) -> &[u8]
    requires order { start ≤ end }
    requires within { end ≤ length text.now }
    ensures { result.now ≡ take (end - start) (drop start text.now) }
{
    &text[start..end]
}

/// Where the field at a place begins.
fn begin(ends: &[u32], at: usize) -> u32
    requires { at < length ends.now }
    ensures { result ≡ begin_of 0 ends.now at }
{
    if at == 0 { 0 } else { ends[at - 1] }
}
