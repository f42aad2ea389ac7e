ghost use Rattle.std.specs.Prelude.{◌≡◌, ◌+◌, ◌<◌, ◌≤◌, length, ◌^◌, ℕ, List, [], ◌∷◌, ◌++◌, Some, None, MatchBool, MatchOption, slice_get};
ghost use Rattle.dap_types.specs.View.{member_view, members_view};
ghost use Rattle.xdr_decode.specs.inner.Leaves.{IsLeaf};
ghost use Rattle.xdr_decode.specs.inner.Places.{AreEmpty, HasRoom, HaveRoom, IsBehind, IsBehindIn, IsEmpty, IsEntered, IsInside, IsLast, IsLastIn, Spot, spot};

use arrayvec::ArrayVec;
use dap_types::{ArrayDecl, Column, Decl, Id};

/// Which variable is meant: the index of a variable, and the one among its parts, and so on.
pub type Path = ArrayVec<u32, 16>;

/// A variable that has values of its own.
#[derive(Clone, Copy)]
pub enum Leaf<'a> {
    Scalar(&'a Column),
    Array(&'a ArrayDecl),
    Sequence(&'a Id, &'a [Column]),
}

/// The array of a Grid with a number: its own comes before its maps.
pub fn array_at<'a>(array: &'a ArrayDecl, maps: &'a [ArrayDecl], at: u32) -> Option<&'a ArrayDecl>
    ensures { MatchOption result (slice_get (array.now ∷ maps.now) at ≡ None) (λ a. slice_get (array.now ∷ maps.now) at ≡ Some a.now) }
{
    if at == 0 {
        return Some(array);
    }
    maps.get(at as usize - 1)
}

/// The variable at a path.
pub fn leaf_at<'a>(decls: &'a [Decl], path: &[u32]) -> Option<Leaf<'a>>
    ensures { (above : List ℕ) → MatchOption result (spot path.now above (members_view decls.now) ≡ None)
        (λ leaf. (s : Spot) × (spot path.now above (members_view decls.now) ≡ Some s) × IsLeaf leaf s.leaf) }
{
    if path.is_empty() {
        return None;
    }
    let at = path[0] as usize;
    if at >= decls.len() {
        return None;
    }
    match &decls[at] {
        Decl::Base(column) => Some(Leaf::Scalar(column)),
        Decl::Array(array) => Some(Leaf::Array(array)),
        Decl::Structure(_, parts) => leaf_at(parts.items(), &path[1..]),
        Decl::Grid(_, array, maps) => {
            if path.len() < 2 {
                return None;
            }
            match array_at(array, maps.items(), path[1]) {
                Some(array) => Some(Leaf::Array(array)),
                None => None,
            }
        }
        Decl::Sequence(name, columns) => Some(Leaf::Sequence(name, columns.items())),
    }
}

/// One more index, where there is room.
fn push(path: &mut Path, at: usize) -> bool
    ensures { MatchBool result ((at < 2 ^ 32) × (path.new.items ≡ path.old.items ++ at ∷ []))
        ((path.new.items ≡ path.old.items) × (at < 2 ^ 32 → 16 ≤ length path.old.items)) }
{
    match u32::try_from(at) {
        Ok(at) => path.try_push(at).is_ok(),
        Err(_) => false,
    }
}

/// Goes on to the first variable with values inside a declaration.
#[cycle(entering)]
fn enter(decl: &Decl, path: &mut Path) -> bool
    ensures { HasRoom (length path.old.items) (member_view decl.now) → MatchBool result
        (IsInside (member_view decl.now) path.old.items path.new.items)
        ((rest : List ℕ) × (path.new.items ≡ path.old.items ++ rest) × IsEmpty (member_view decl.now)) }
{
    match decl {
        Decl::Base(_) => true,
        Decl::Array(_) => true,
        Decl::Sequence(_, _) => true,
        Decl::Structure(_, parts) => enter_first(0, parts.items(), path),
        Decl::Grid(_, _, _) => push(path, 0),
    }
}

/// Goes to the first variable with values of a declaration with this index.
#[cycle(entering)]
fn enter_at(at: usize, decl: &Decl, path: &mut Path) -> bool
    ensures { length path.old.items < 16 → HasRoom (length path.old.items + 1) (member_view decl.now) → at < 2 ^ 32 → MatchBool result
        (IsInside (member_view decl.now) (path.old.items ++ at ∷ []) path.new.items)
        ((path.new.items ≡ path.old.items) × IsEmpty (member_view decl.now)) }
{
    let level = path.len();
    if !push(path, at) {
        return false;
    }
    if enter(decl, path) {
        return true;
    }
    path.truncate(level);
    false
}

/// Goes to the first variable with values among declarations, of which the first has this index.
#[cycle(entering)]
pub fn enter_first(from: usize, decls: &[Decl], path: &mut Path) -> bool
    ensures { HaveRoom (length path.old.items) (members_view decls.now) → from + length decls.now < 2 ^ 32 → MatchBool result
        (IsEntered from (members_view decls.now) path.old.items path.new.items)
        ((path.new.items ≡ path.old.items) × AreEmpty (members_view decls.now)) }
{
    for (at, decl) in decls.iter().enumerate() {
        if enter_at(from.wrapping_add(at), decl, path) {
            return true;
        }
    }
    false
}

/// Goes to the next array of a Grid with so many maps, whose number stands at this level.
fn advance_map(maps: usize, level: usize, path: &mut Path) -> bool
    ensures { (up at : List ℕ) → path.old.items ≡ up ++ at → length up ≡ level → level < 16 → maps + 2 < 2 ^ 32 → MatchBool result
        ((i : ℕ) × (rest : List ℕ) × (at ≡ i ∷ rest) × (i < maps) × (path.new.items ≡ up ++ (i + 1) ∷ []))
        ((path.new.items ≡ up) × ((i : ℕ) (rest : List ℕ) → at ≡ i ∷ rest → maps ≤ i)) }
{
    if level >= path.len() {
        return false;
    }
    let at = path.as_slice()[level] as usize;
    path.truncate(level);
    if at >= maps {
        return false;
    }
    push(path, at + 1)
}

/// Goes behind the variable with values inside a declaration, whose index there stands at this level.
#[cycle(advancing)]
fn advance_in(decl: &Decl, level: usize, path: &mut Path) -> bool
    ensures { (up at : List ℕ) → path.old.items ≡ up ++ at → length up ≡ level → HasRoom level (member_view decl.now) → MatchBool result
        ((now : List ℕ) × (path.new.items ≡ up ++ now) × IsBehindIn (member_view decl.now) at now)
        ((now : List ℕ) × (path.new.items ≡ up ++ now) × IsLastIn (member_view decl.now) at) }
{
    match decl {
        Decl::Structure(_, parts) => advance(parts.items(), level, path),
        Decl::Grid(_, _, maps) => advance_map(maps.items().len(), level, path),
        Decl::Base(_) => false,
        Decl::Array(_) => false,
        Decl::Sequence(_, _) => false,
    }
}

/// Goes behind the variable with values, among declarations whose index stands at this level.
#[cycle(advancing)]
pub fn advance(decls: &[Decl], level: usize, path: &mut Path) -> bool
    ensures { (up at : List ℕ) → path.old.items ≡ up ++ at → length up ≡ level → HaveRoom level (members_view decls.now) → MatchBool result
        ((now : List ℕ) × (path.new.items ≡ up ++ now) × IsBehind (members_view decls.now) at now)
        ((path.new.items ≡ up) × IsLast (members_view decls.now) at) }
{
    if level >= path.len() {
        return false;
    }
    let at = path.as_slice()[level] as usize;
    if at >= decls.len() {
        path.truncate(level);
        return false;
    }
    if advance_in(&decls[at], level + 1, path) {
        return true;
    }
    path.truncate(level);
    enter_first(at + 1, &decls[at + 1..], path)
}
