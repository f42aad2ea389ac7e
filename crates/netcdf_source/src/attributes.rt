ghost use Rattle.std.specs.Prelude.{◌≡◌, ℕ, [], ◌∷◌, IfOk, IfNone, MatchOption};
ghost use Rattle.netcdf_source.specs.Versions.{number_width};
ghost use Rattle.netcdf_source.specs.inner.Reading.{Gives, Reads, next_attribute, times, list_at};
ghost use Rattle.netcdf_source.specs.inner.Unread.{behind_at, attributes_in};

use crate::attribute::{Attribute, first_attribute};
use crate::failure::{Failure, Stop};
use crate::version::Version;
use crate::words::head;
use dap_types::{Bytes, Memory};
use std::alloc::Global;
use std::marker::Model;

/// The tag of a list of attributes.
const TAG: u32 = 12;

/// The attributes of a variable or of the file, each made when it is asked for, of which no more bytes
/// are kept than they stand in. Contracts see their list.
#[derive(Debug, Drop)]
pub struct AttributeList {
    version: Version,
    count: u64,
    /// The bytes of the header that they stand in.
    bytes: Bytes,
}

impl Model for AttributeList {
    ghost use Rattle.std.specs.Prelude.{◌≡◌, List, [], Ok};
    ghost use Rattle.netcdf_source.specs.Attribute.{Attribute};

    ghost Value = { List Attribute };

    ghost use Rattle.netcdf_source.specs.inner.Unread.{attributes_in, behind_at};

    ghost view = { λ a. attributes_in a.version a.count a.bytes };

    // Nothing stands behind the attributes.
    ghost invariant = { λ a. behind_at a.version a.count a.bytes ≡ Ok [] };
}

/// Attributes that are still to be read, where they stand. Contracts see their list.
#[derive(Debug, Drop)]
pub struct Unread<'a> {
    version: Version,
    count: u64,
    bytes: &'a [u8],
}

impl<'a> Model for Unread<'a> {
    ghost use Rattle.std.specs.Prelude.{List};
    ghost use Rattle.netcdf_source.specs.Attribute.{Attribute};

    ghost Value = { List Attribute };

    ghost use Rattle.netcdf_source.specs.inner.Unread.{attributes_in};

    ghost view = { λ a. attributes_in a.version a.count a.bytes.now };
}

impl<'a> Unread<'a> {
    /// The next attribute. Behind the last one there is none, however often it is asked for.
    #[tactic(auto, unfolding(crate::specs::inner::Unread::attributes_in))]
    pub fn next(&mut self) -> Option<Attribute<'a>>
        ensures next { MatchOption result (self.old ≡ []) (λ a. self.old ≡ a ∷ self.new) }
        ensures ended { IfNone result (self.new ≡ []) }
    {
        if self.count == 0 {
            return None;
        }
        let Ok((attribute, rest)) = first_attribute(self.version, self.bytes) else {
            return None;
        };
        self.count -= 1;
        self.bytes = rest;
        Some(attribute)
    }
}

impl AttributeList {
    /// The attributes from the first on.
    pub fn unread(&self) -> Unread<'_>
        ensures { result ≡ self.now }
    {
        Unread {
            version: self.version,
            count: self.count,
            bytes: self.bytes.bytes(),
        }
    }

    /// The same attributes once more.
    pub fn try_clone(&self, alloc: Global) -> Result<AttributeList, Memory>
        ensures { IfOk result (λ list. list ≡ self.now) }
    {
        Ok(AttributeList {
            version: self.version,
            count: self.count,
            bytes: Bytes::new(alloc, self.bytes.bytes())?,
        })
    }
}

/// What stands behind so many attributes.
fn behind(version: Version, count: u64, bytes: &[u8]) -> Result<&[u8], Failure>
    ensures { Reads (λ rest. rest.now) result (behind_at version count bytes.now) }
{
    let mut rest = bytes;
    for _ in 0..count {
        let (_, after) = first_attribute(version, rest)?;
        rest = after;
    }
    Ok(rest)
}

/// So many attributes, kept as the bytes that they stand in.
fn items(
    alloc: Global,
    version: Version,
    count: u64,
    bytes: &[u8],
) -> Result<(AttributeList, &[u8]), Stop>
    ensures { Gives (λ x. (x.0, x.1.now)) result (times (next_attribute version) count [] bytes.now) }
{
    let rest = behind(version, count, bytes)?;
    let front = &bytes[..bytes.len() - rest.len()];
    let list = AttributeList {
        version,
        count,
        bytes: Bytes::new(alloc, front)?,
    };
    Ok((list, rest))
}

/// A list of attributes.
#[tactic(auto, unfolding(crate::specs::inner::Reading::list_at))]
pub fn attributes(
    alloc: Global,
    version: Version,
    bytes: &[u8],
) -> Result<(AttributeList, &[u8]), Stop>
    ensures { Gives (λ x. (x.0, x.1.now)) result (list_at (number_width version) 12 (next_attribute version) bytes.now) }
{
    let (count, rest) = head(version.number_width(), TAG, bytes)?;
    items(alloc, version, count, rest)
}
