ghost use Rattle.std.specs.Prelude.{◌≡◌};
ghost use Rattle.netcdf_source.specs.inner.Reading.{Reads, attribute_at};

use crate::ExternalType;
use crate::failure::Failure;
use crate::version::Version;
use crate::words::{any_number, external_type, name, values};
use std::marker::Model;

/// An attribute of a variable or of the file, where it stands in the header (netCDF classic format,
/// `attr`).
#[derive(Debug, Drop)]
pub struct Attribute<'a> {
    name: &'a [u8],
    external_type: ExternalType,
    /// The bytes of its values, without padding.
    values: &'a [u8],
}

impl<'a> Model for Attribute<'a> {
    ghost use Rattle.netcdf_source.specs.Attribute.{Attribute};

    ghost Value = { Attribute };

    ghost view = { λ a. record { name = a.name.now; external_type = a.external_type; values = a.values.now } };
}

/// The attribute in front of some bytes, and what stands behind it.
#[tactic(auto, unfolding(crate::specs::inner::Reading::attribute_at))]
pub fn first_attribute(version: Version, bytes: &[u8]) -> Result<(Attribute<'_>, &[u8]), Failure>
    ensures { Reads (λ x. (x.0, x.1.now)) result (attribute_at version bytes.now) }
{
    let width = version.number_width();
    let (name, rest) = name(width, bytes)?;
    let (external_type, rest) = external_type(version, rest)?;
    let (count, rest) = any_number(width, rest)?;
    let (values, rest) = values(count, external_type.size(), rest)?;
    let attribute = Attribute {
        name,
        external_type,
        values,
    };
    Ok((attribute, rest))
}

impl<'a> Attribute<'a> {
    pub fn name(&self) -> &'a [u8]
        ensures { result.now ≡ self.now.name }
    {
        self.name
    }

    pub fn external_type(&self) -> ExternalType
        ensures { result ≡ self.now.external_type }
    {
        self.external_type
    }

    /// The bytes of its values, without padding.
    pub fn values(&self) -> &'a [u8]
        ensures { result.now ≡ self.now.values }
    {
        self.values
    }
}
