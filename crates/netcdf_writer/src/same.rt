//! Whether a map is the same variable as another.

ghost use Rattle.std.specs.Prelude.{◌≡◌, map, ◌==◌};
ghost use Rattle.std.specs.Cmp.Lexicographic.{pointwise};
ghost use Rattle.dap_types.specs.View.{tree_view};
ghost use Rattle.netcdf_writer.specs.Variables.{is_same, same_base, same_dim, same_element, same_value};
ghost use Rattle.netcdf_writer.specs.inner.Tables.{variable_view};

use crate::lent::{Lent, dim_name, parts_of};
use dap_types::{BaseType, Dim, Tree, Value};

fn same_base(a: BaseType, b: BaseType) -> bool
    ensures { result ≡ same_base a b }
{
    a == b
}

fn same_dim(a: &Dim, b: &Dim) -> bool
    ensures { result ≡ same_dim a.now b.now }
{
    a.size == b.size && dim_name(a) == dim_name(b)
}

fn same_dims(a: &[Dim], b: &[Dim]) -> bool
    ensures { result ≡ pointwise same_dim a.now b.now }
{
    if a.len() != b.len() {
        return false;
    }
    for (k, dim) in a.iter().enumerate() {
        if !same_dim(dim, &b[k]) {
            return false;
        }
    }
    true
}

fn same_value(a: &Value, b: &Value) -> bool
    ensures { result ≡ same_value a.now b.now }
{
    match (a, b) {
        (Value::Whole(y), Value::Whole(z)) => *y == *z,
        (Value::Text(s), Value::Text(t)) => s.bytes() == t.bytes(),
        (Value::Bits32(m), Value::Bits32(n)) => *m == *n,
        (Value::Bits64(m), Value::Bits64(n)) => *m == *n,
        _ => false,
    }
}

#[tactic(auto, using(dap_types::proofs::Views::views))]
fn same_element(a: &Tree, b: &Tree) -> bool
    ensures { result ≡ same_element (tree_view a.now) (tree_view b.now) }
{
    match (a, b) {
        (Tree::One(v), Tree::One(w)) => same_value(v, w),
        _ => false,
    }
}

fn same_elements(a: &[Tree], b: &[Tree]) -> bool
    ensures { result ≡ pointwise same_element (map tree_view a.now) (map tree_view b.now) }
{
    if a.len() != b.len() {
        return false;
    }
    for (k, tree) in a.iter().enumerate() {
        if !same_element(tree, &b[k]) {
            return false;
        }
    }
    true
}

/// Whether two variables of one dimension have the same type, dimension and values.
#[tactic(auto, unfolding(crate::specs::Variables::is_same))]
pub fn is_same(a: &Lent<'_>, b: &Lent<'_>) -> bool
    ensures { result ≡ is_same (variable_view a.now) (variable_view b.now) }
{
    same_base(a.base, b.base)
        && same_dims(a.dims, b.dims)
        && same_elements(parts_of(a.tree), parts_of(b.tree))
}
