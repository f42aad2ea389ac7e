ghost use Rattle.std.specs.Prelude.{◌≡◌, ℕ, Bool};
ghost use Rattle.netcdf_source.specs.Grammar.{is_record_dimension};
ghost use Rattle.std.specs.List.{list_any};
ghost use Rattle.netcdf_source.specs.inner.Shapes.{all_same, same_dimension, same_variable, have_same_shape};

use crate::header::Contents;
use crate::{Dimension, Variable};

/// Whether one of these is the record dimension.
pub fn has_record_dimension(dimensions: &[Dimension]) -> bool
    ensures { result ≡ list_any is_record_dimension dimensions.now }
{
    for dimension in dimensions {
        if dimension.length == 0 {
            return true;
        }
    }
    false
}

/// Whether two dimensions have one name and one length.
#[tactic(auto, unfolding(crate::specs::inner::Shapes::same_dimension))]
fn same_dimension(one: &Dimension, other: &Dimension) -> bool
    ensures { result ≡ same_dimension one.now other.now }
{
    one.length == other.length && one.name.bytes() == other.name.bytes()
}

/// Whether these dimensions are the same, one by one.
#[tactic(auto, unfolding(crate::specs::inner::Shapes::all_same))]
fn same_dimensions(one: &[Dimension], other: &[Dimension]) -> bool
    ensures { result ≡ all_same same_dimension one.now other.now }
{
    if one.len() != other.len() {
        return false;
    }
    for (i, dimension) in one.iter().enumerate() {
        if !same_dimension(dimension, &other[i]) {
            return false;
        }
    }
    true
}

/// Whether two variables have one name, one type and the same dimensions.
#[tactic(auto, unfolding(crate::specs::inner::Shapes::same_variable))]
fn same_variable(one: &Variable, other: &Variable) -> bool
    ensures { result ≡ same_variable one.now other.now }
{
    one.external_type.number() == other.external_type.number()
        && one.dimensions.items() == other.dimensions.items()
        && one.name.bytes() == other.name.bytes()
}

/// Whether these variables are the same, one by one, but for their attributes and places.
#[tactic(auto, unfolding(crate::specs::inner::Shapes::all_same))]
fn same_variables(one: &[Variable], other: &[Variable]) -> bool
    ensures { result ≡ all_same same_variable one.now other.now }
{
    if one.len() != other.len() {
        return false;
    }
    for (i, variable) in one.iter().enumerate() {
        if !same_variable(variable, &other[i]) {
            return false;
        }
    }
    true
}

/// Whether two headers have the same dimensions and the same variables.
#[tactic(auto, unfolding(crate::specs::inner::Shapes::have_same_shape))]
pub fn have_same_shape(one: &Contents, other: &Contents) -> bool
    ensures { result ≡ have_same_shape one.now other.now }
{
    same_dimensions(one.dimensions.items(), other.dimensions.items())
        && same_variables(one.variables.items(), other.variables.items())
}
