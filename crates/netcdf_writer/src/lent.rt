//! The variables of a dataset where they stand in it.

ghost use Rattle.std.specs.Prelude.{◌≡◌, [], ◌∷◌, ◌++◌, map, drop, IfOk, OnOk};
ghost use Rattle.dap_types.specs.Model.{kids};
ghost use Rattle.dap_types.specs.View.{tree_view};
ghost use Rattle.netcdf_writer.specs.Variables.{array_variable, array_variables, dim_name};
ghost use Rattle.netcdf_writer.specs.inner.Tables.{variable_view, variable_views};

use dap_types::{ArrayDecl, BaseType, Dim, Id, Memory, Tree};
use std::alloc::Global;

/// A variable and its values. A scalar has no dimensions.
#[derive(Clone, Copy, Debug)]
pub struct Lent<'a> {
    pub name: &'a Id,
    pub base: BaseType,
    pub dims: &'a [Dim],
    pub tree: &'a Tree,
}

impl<'a> Lent<'a> {
    /// An array with its values.
    pub fn of_array(array: &'a ArrayDecl, tree: &'a Tree) -> Lent<'a>
        ensures { variable_view result ≡ array_variable array.now (tree_view tree.now) }
    {
        Lent {
            name: &array.name,
            base: array.base,
            dims: array.dims.items(),
            tree,
        }
    }
}

/// The name of a dimension, which is empty where it has none.
pub fn dim_name(dim: &Dim) -> &[u8]
    ensures { result.now ≡ dim_name dim.now }
{
    match &dim.name {
        Some(name) => name.bytes(),
        None => &[],
    }
}

/// The parts of a tree, none of a value.
#[tactic(auto, using(dap_types::proofs::Views::views, dap_types::proofs::Views::walks))]
pub fn parts_of(tree: &Tree) -> &[Tree]
    ensures { map tree_view result.now ≡ kids (tree_view tree.now) }
{
    match tree {
        Tree::One(_) => &[],
        Tree::Many(parts) => parts.items(),
    }
}

/// Appends a variable.
pub fn push<'a>(out: &mut Vec<Lent<'a>>, variable: Lent<'a>) -> Result<(), Memory>
    ensures { OnOk result (variable_views out.new.items ≡ variable_views out.old.items ++ variable_view variable.entry ∷ []) }
{
    out.push(variable)?;
    Ok(())
}

/// Arrays, each with its values.
#[tactic(auto, using(crate::proofs::Owning::steps))]
pub fn array_variables<'a>(
    alloc: Global,
    arrays: &'a [ArrayDecl],
    trees: &'a [Tree],
) -> Result<Vec<Lent<'a>>, Memory>
    ensures { IfOk result (λ vs. variable_views vs.items ≡ array_variables arrays.now (map tree_view trees.now)) }
{
    let mut out = Vec::new(alloc);
    let count = arrays.len().min(trees.len());
    for k in 0..count {
        push(&mut out, Lent::of_array(&arrays[k], &trees[k]))?;
    }
    Ok(out)
}

/// Trees without the first.
pub fn behind_first(trees: &[Tree]) -> &[Tree]
    ensures { result.now ≡ drop 1 trees.now }
{
    match trees {
        [_, rest @ ..] => rest,
        [] => trees,
    }
}
