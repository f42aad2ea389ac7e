//! The values of variables, as trees, out of bytes that stand in memory.

ghost use Rattle.std.specs.Prelude.{◌≡◌, ℕ, ◌*◌, ◌≤◌, ◌∷◌, ◌++◌, [], List as Items, length, map, All, IfOk, IfErr};
ghost use Rattle.std.specs.List.{AllZip, flat_map};
ghost use Rattle.dap_types.specs.Model.{product, sizes};
ghost use Rattle.dap_types.specs.View.{member_view, members_view, tree_view, trees_view};
ghost use Rattle.dap_types.specs.declared.declarations.BaseType.TheVariants.{Byte};
ghost use Rattle.dap_model.specs.Fits.{Fits, FitsAll, FitsArray, FitsRow, FitsScalar, values_in, values_in_all};
ghost use Rattle.dap_model.specs.Laws.{IsNumber};
ghost use Rattle.dap_model.specs.Xdr.{array_fields, array_fields_of_each, cell_fields, fields, fields_all, mark, row_fields};
ghost use Rattle.xdr_decode.specs.inner.Taken.{Spelt, Stops, element_want, elements_fields, sizes_of};
ghost use Rattle.xdr_fields.specs.Wants.{IsTextType, array_wants, cell_wants, elements_left, rows as rows_from, wants, wants_all, wants_of_array, wants_of_arrays};

use crate::field::Ask;
use crate::place::{elements, fill};
use crate::values::{Stop, element, field, is_row, value};
use dap_types::{ArrayDecl, BaseType, Column, Decl, Dim, List, Tree};
use std::alloc::Global;

/// The elements of an array of these dimensions, in row-major order, and what stands behind them.
#[cycle(nested)]
fn nested<'a>(
    alloc: Global,
    base: BaseType,
    dims: &[Dim],
    bytes: &'a [u8],
) -> Result<(Tree, &'a [u8]), Stop>
    ensures fits { IfOk result (λ r. FitsArray base (sizes_of dims.now) (tree_view r.0)) }
    ensures read { IfOk result (λ r. Spelt (elements_fields base (values_in (tree_view r.0))) bytes.now r.1.now) }
    ensures stop { (path ns : Items ℕ) (at : ℕ) → IfErr result
        (Stops (elements_left (element_want base) path ns at (product (sizes_of dims.now))) bytes.now) }
{
    if dims.is_empty() {
        let (value, rest) = element(alloc, base, bytes)?;
        return Ok((Tree::One(value), rest));
    }
    let (trees, rest) = each(alloc, base, dims[0].size, &dims[1..], bytes)?;
    Ok((Tree::Many(trees), rest))
}

/// The same for each of so many indexes.
#[cycle(nested)]
fn each<'a>(
    alloc: Global,
    base: BaseType,
    count: u32,
    dims: &[Dim],
    bytes: &'a [u8],
) -> Result<(List<Tree>, &'a [u8]), Stop>
    ensures fits { IfOk result (λ r. (length r.0 ≡ count) × All (FitsArray base (sizes_of dims.now)) (map tree_view r.0)) }
    ensures read { IfOk result (λ r. Spelt (elements_fields base (values_in_all (trees_view r.0))) bytes.now r.1.now) }
    ensures stop { (path ns : Items ℕ) (at : ℕ) → IfErr result
        (Stops (elements_left (element_want base) path ns at (count * product (sizes_of dims.now))) bytes.now) }
{
    let mut trees = List::new(alloc);
    let mut rest = bytes;
    for _ in 0..count {
        let (tree, behind) = nested(alloc, base, dims, rest)?;
        trees.push(tree)?;
        rest = behind;
    }
    Ok((trees, rest))
}

/// An array of strings behind its one count (DAP 2.0, arrays).
fn texts<'a>(
    alloc: Global,
    base: BaseType,
    dims: &[Dim],
    bytes: &'a [u8],
) -> Result<(Tree, &'a [u8]), Stop>
    requires { IsTextType base }
    ensures fits { IfOk result (λ r. FitsArray base (sizes_of dims.now) (tree_view r.0)) }
    ensures read { IfOk result (λ r. Spelt (array_fields base (values_in (tree_view r.0))) bytes.now r.1.now) }
    ensures stop { (path : Items ℕ) → IfErr result
        (Stops (array_wants base path (sizes_of dims.now) (product (sizes_of dims.now))) bytes.now) }
{
    let (_, rest) = field(Ask::Count(elements(dims)), bytes)?;
    nested(alloc, base, dims, rest)
}

/// An array of numbers behind its two counts (DAP 2.0, arrays).
fn numbers<'a>(
    alloc: Global,
    base: BaseType,
    dims: &[Dim],
    bytes: &'a [u8],
) -> Result<(Tree, &'a [u8]), Stop>
    requires number { IsNumber base }
    requires wide { ¬ (base ≡ Byte) }
    ensures fits { IfOk result (λ r. FitsArray base (sizes_of dims.now) (tree_view r.0)) }
    ensures read { IfOk result (λ r. Spelt (array_fields base (values_in (tree_view r.0))) bytes.now r.1.now) }
    ensures stop { (path : Items ℕ) → IfErr result
        (Stops (array_wants base path (sizes_of dims.now) (product (sizes_of dims.now))) bytes.now) }
{
    let (_, rest) = field(Ask::Count(elements(dims)), bytes)?;
    let (_, rest) = field(Ask::Count(elements(dims)), rest)?;
    nested(alloc, base, dims, rest)
}

/// An array of packed bytes, and what stands behind the zero bytes up to a multiple of four (DAP 2.0,
/// arrays).
fn packed<'a>(alloc: Global, dims: &[Dim], bytes: &'a [u8]) -> Result<(Tree, &'a [u8]), Stop>
    ensures fits { IfOk result (λ r. FitsArray Byte (sizes_of dims.now) (tree_view r.0)) }
    ensures read { IfOk result (λ r. Spelt (array_fields Byte (values_in (tree_view r.0))) bytes.now r.1.now) }
    ensures stop { (path : Items ℕ) → IfErr result
        (Stops (array_wants Byte path (sizes_of dims.now) (product (sizes_of dims.now))) bytes.now) }
{
    let count = elements(dims);
    let (_, rest) = field(Ask::Count(count), bytes)?;
    let (_, rest) = field(Ask::Count(count), rest)?;
    let (tree, rest) = nested(alloc, BaseType::Byte, dims, rest)?;
    let (_, behind) = field(Ask::Filler(fill(count.min(0xffff_ffff) as u32)), rest)?;
    Ok((tree, behind))
}

/// An array, and what stands behind it.
fn array<'a>(alloc: Global, decl: &ArrayDecl, bytes: &'a [u8]) -> Result<(Tree, &'a [u8]), Stop>
    ensures fits { IfOk result (λ r. FitsArray decl.now.base (sizes decl.now) (tree_view r.0)) }
    ensures read { IfOk result (λ r. Spelt (array_fields decl.now.base (values_in (tree_view r.0))) bytes.now r.1.now) }
    ensures stop { (above : Items ℕ) → IfErr result (Stops (wants_of_array above decl.now) bytes.now) }
{
    let dims = decl.dims.items();
    match decl.base {
        BaseType::Byte => packed(alloc, dims, bytes),
        BaseType::Text => texts(alloc, BaseType::Text, dims, bytes),
        BaseType::Url => texts(alloc, BaseType::Url, dims, bytes),
        _ => numbers(alloc, decl.base, dims, bytes),
    }
}

/// The array of a Grid and its maps, and what stands behind them (DAP 2.0, Grid).
fn grid<'a>(
    alloc: Global,
    own: &ArrayDecl,
    maps: &[ArrayDecl],
    bytes: &'a [u8],
) -> Result<(List<Tree>, &'a [u8]), Stop>
    ensures fits { IfOk result (λ r. AllZip (λ a t. FitsArray a.base (sizes a) t) (own.now ∷ maps.now) (map tree_view r.0)) }
    ensures read { IfOk result (λ r. Spelt (array_fields_of_each (own.now ∷ maps.now) (map tree_view r.0)) bytes.now r.1.now) }
    ensures stop { (above : Items ℕ) → IfErr result (Stops (wants_of_arrays above (own.now ∷ maps.now)) bytes.now) }
{
    let mut trees = List::new(alloc);
    let (first, behind) = array(alloc, own, bytes)?;
    trees.push(first)?;
    let mut rest = behind;
    for map in maps {
        let (tree, behind) = array(alloc, map, rest)?;
        trees.push(tree)?;
        rest = behind;
    }
    Ok((trees, rest))
}

/// The cells of a row, and what stands behind them.
fn cells<'a>(
    alloc: Global,
    columns: &[Column],
    bytes: &'a [u8],
) -> Result<(List<Tree>, &'a [u8]), Stop>
    ensures fits { IfOk result (λ r. AllZip (λ c t. FitsScalar c.base t) columns.now (map tree_view r.0)) }
    ensures read { IfOk result (λ r. Spelt (cell_fields columns.now (map tree_view r.0)) bytes.now r.1.now) }
    ensures stop { (above : Items ℕ) → IfErr result (Stops (cell_wants above columns.now) bytes.now) }
{
    let mut cells = List::new(alloc);
    let mut rest = bytes;
    for column in columns {
        let (value, behind) = value(alloc, column.base, rest)?;
        cells.push(Tree::One(value))?;
        rest = behind;
    }
    Ok((cells, rest))
}

/// The rows of a Sequence, and what stands behind the mark of its end (DAP 2.0, Sequence).
fn rows<'a>(
    alloc: Global,
    columns: &[Column],
    bytes: &'a [u8],
) -> Result<(List<Tree>, &'a [u8]), Stop>
    ensures fits { IfOk result (λ r. All (FitsRow columns.now) (map tree_view r.0)) }
    ensures read { IfOk result (λ r. Spelt (flat_map (row_fields columns.now) (map tree_view r.0) ++ mark 0xa5 ∷ []) bytes.now r.1.now) }
    ensures stop { (above name : Items ℕ) → IfErr result (Stops (rows_from above name columns.now 0 ∷ []) bytes.now) }
{
    let mut rows = List::new(alloc);
    let mut rest = bytes;
    loop {
        let (more, behind) = is_row(rest)?;
        if !more {
            return Ok((rows, behind));
        }
        let (cells, behind) = cells(alloc, columns, behind)?;
        rows.push(Tree::Many(cells))?;
        rest = behind;
    }
}

/// The values of a variable, and what stands behind them.
#[cycle(variables)]
fn member<'a>(alloc: Global, decl: &Decl, bytes: &'a [u8]) -> Result<(Tree, &'a [u8]), Stop>
    ensures fits { IfOk result (λ r. Fits (member_view decl.now) (tree_view r.0)) }
    ensures read { IfOk result (λ r. Spelt (fields (member_view decl.now) (tree_view r.0)) bytes.now r.1.now) }
    ensures stop { (above : Items ℕ) → IfErr result (Stops (wants above (member_view decl.now)) bytes.now) }
{
    match decl {
        Decl::Base(column) => {
            let (value, rest) = value(alloc, column.base, bytes)?;
            Ok((Tree::One(value), rest))
        }
        Decl::Array(decl) => array(alloc, decl, bytes),
        Decl::Structure(_, parts) => {
            let (trees, rest) = members(alloc, parts.items(), bytes)?;
            Ok((Tree::Many(trees), rest))
        }
        Decl::Grid(_, array, maps) => {
            let (trees, rest) = grid(alloc, array, maps.items(), bytes)?;
            Ok((Tree::Many(trees), rest))
        }
        Decl::Sequence(_, columns) => {
            let (rows, rest) = rows(alloc, columns.items(), bytes)?;
            Ok((Tree::Many(rows), rest))
        }
    }
}

/// The values of some variables in order, and what stands behind them.
#[cycle(variables)]
pub fn members<'a>(
    alloc: Global,
    decls: &[Decl],
    bytes: &'a [u8],
) -> Result<(List<Tree>, &'a [u8]), Stop>
    ensures fits { IfOk result (λ r. FitsAll (members_view decls.now) (map tree_view r.0)) }
    ensures read { IfOk result (λ r. Spelt (fields_all (members_view decls.now) (map tree_view r.0)) bytes.now r.1.now) }
    ensures stop { (above : Items ℕ) → IfErr result (Stops (wants_all above (members_view decls.now)) bytes.now) }
{
    let mut trees = List::new(alloc);
    let mut rest = bytes;
    for decl in decls {
        let (tree, behind) = member(alloc, decl, rest)?;
        trees.push(tree)?;
        rest = behind;
    }
    Ok((trees, rest))
}
