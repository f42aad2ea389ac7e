ghost use Rattle.std.specs.Prelude.{◌≡◌, ◌+◌, ◌-◌, ◌*◌, ◌<◌, ◌≤◌, ◌^◌, ℕ, List, [], ◌∷◌, ◌++◌, length, drop, map, min, Some, IfSome, MatchBool};
ghost use Rattle.dap_model.specs.Laws.{IsNumber};
ghost use Rattle.dap_model.specs.Xdr.{Field, fill as zeros_behind};
ghost use Rattle.dap_types.specs.Model.{Member, array, sequence, product, sizes};
ghost use Rattle.dap_types.specs.View.{members_view};
ghost use Rattle.xdr_fields.specs.Wants.{Goes, IsTextType, Want, a_count, becomes, cell_wants, row_path, rows, wants_all, wants_of_array};
ghost use Rattle.xdr_decode.specs.inner.Asked.{Is, element_ask, width_of};
ghost use Rattle.xdr_decode.specs.inner.Leaves.{IsLeaf};
ghost use Rattle.xdr_decode.specs.inner.Moving.{IsSettled, Moves, mark_bytes, string_behind};
ghost use Rattle.xdr_decode.specs.inner.Runs.{AreElements, HasElements};
ghost use Rattle.xdr_decode.specs.inner.Turning.{IsFresh, MayBeEmpty, WhereBytes, WhereField, rank, stage_rank};
ghost use Rattle.xdr_decode.specs.inner.Places.{AsksFirst, HaveMarks, HaveRoom, IsEarly, IsNext, IsPlaced, IsStage, IsStageOr, Spot, elements_wants, spot_at, stage_wants, text_behind, wants_left};

use crate::field::{Ask, Token};
use crate::path::{Leaf, Path, advance, enter_first, leaf_at};
use dap_types::{ArrayDecl, BaseType, Column, Decl, Dim};

/// How far a variable was read.
#[derive(Clone, Copy)]
pub enum Stage {
    /// Nothing of it was: its value, its count or a mark comes.
    Start,
    /// The second count comes (DAP 2.0, arrays).
    Again(u32),
    /// The element with this number comes, of so many.
    Elements(u32, u32),
    /// Zero bytes come, behind so many packed bytes.
    Filler(u32),
    /// The mark before this row comes, or the last one.
    Rows(u64),
    /// The cell of this column comes, in this row.
    Cells(u64, usize),
    /// It is read.
    Behind,
}

/// How far a string was read.
#[derive(Clone, Copy)]
pub enum Text {
    /// None comes.
    Nothing,
    /// So many bytes come, of so many.
    Bytes(u32, u32),
    /// Zero bytes come, behind so many.
    Padding(u32),
}

/// Where a reader stands among the values of a dataset.
pub struct Place {
    path: Path,
    stage: Stage,
    text: Text,
}

impl Drop for Place {
    fn drop(self) {
        let Place {
            path,
            stage: _,
            text: _,
        } = self;
        drop(path);
    }
}

/// What comes next.
#[derive(Clone, Copy)]
pub enum Next {
    /// Nothing: the values are ended.
    Nothing,
    Field(Ask),
    /// The bytes of a string, so many.
    Bytes(u32),
}

/// Numbers that come next, one after the other: of which type, and how many.
#[derive(Clone, Copy)]
pub struct Run {
    pub base: BaseType,
    pub count: u32,
}

/// The number of elements of an array of these sizes, or 2^32 where there are more.
pub fn elements(dims: &[Dim]) -> u64
    ensures { result ≡ min (product (map (λ dim. dim.size) dims.now)) (2 ^ 32) }
{
    if dims.is_empty() {
        return 1;
    }
    let behind = elements(&dims[1..]);
    (u64::from(dims[0].size) * behind).min(1 << 32)
}

/// How many zero bytes make a multiple of four.
pub fn fill(count: u32) -> usize
    ensures { result ≡ zeros_behind count }
{
    3 - (count as usize + 3) % 4
}

/// What an element of an array asks for.
fn element(base: BaseType) -> Ask
    ensures { result ≡ element_ask base }
{
    match base {
        BaseType::Byte => Ask::Packed,
        _ => Ask::Value(base),
    }
}

/// Whether values of a type are strings.
fn is_text(base: BaseType) -> bool
    ensures { MatchBool result (IsTextType base) (¬ IsTextType base) }
{
    base == BaseType::Text || base == BaseType::Url
}

/// So many elements of a variable, where it is an array of numbers.
fn run_of(leaf: Leaf<'_>, count: u32) -> Option<Run>
    ensures number { IfSome result (λ run. IsNumber run.base) }
    ensures elements { (m : Member) → IsLeaf leaf.entry m → IfSome result (λ run. (a : ArrayDecl) × (m ≡ array a) × (a.base ≡ run.base)) }
    ensures count { IfSome result (λ run. run.count ≡ count) }
{
    match leaf {
        Leaf::Array(array) => {
            if is_text(array.base) {
                None
            } else {
                Some(Run {
                    base: array.base,
                    count,
                })
            }
        }
        Leaf::Scalar(_) => None,
        Leaf::Sequence(_, _) => None,
    }
}

/// How far an array is read before one of its elements, of so many.
fn elements_from(leaf: Leaf<'_>, at: u32, count: u32) -> Stage
    ensures wants { (above : List ℕ) (a : ArrayDecl) → IsLeaf leaf.entry (array a) → at ≤ count → stage_wants above (array a) result ≡ elements_wants a.base (above ++ a.name) (sizes a) at count }
    ensures stage { (a : ArrayDecl) → IsLeaf leaf.entry (array a) → at ≤ count → count ≡ product (sizes a) → IsStageOr (array a) result }
    ensures rank { stage_rank result ≤ 1 }
    ensures marks { (n : ℕ) → HaveMarks result n }
{
    match leaf {
        Leaf::Array(array) => behind_elements(array, at, count),
        Leaf::Scalar(_) => Stage::Elements(at, count),
        Leaf::Sequence(_, _) => Stage::Elements(at, count),
    }
}

impl Place {
    /// Before the first value.
    pub fn new(decls: &[Decl]) -> Place
        ensures start { result.stage ≡ Stage.Start }
        ensures wants { HaveRoom 0 (members_view decls.now) → wants_left (members_view decls.now) result ≡ wants_all [] (members_view decls.now) }
        ensures placed { HaveRoom 0 (members_view decls.now) → IsPlaced (members_view decls.now) result }
    {
        let mut path = Path::new();
        enter_first(0, decls, &mut path);
        Place {
            path,
            stage: Stage::Start,
            text: Text::Nothing,
        }
    }

    pub fn path(&self) -> &[u32]
        ensures { result.now ≡ self.now.path.items }
    {
        self.path.as_slice()
    }

    pub fn stage(&self) -> Stage
        ensures { result ≡ self.now.stage }
    {
        self.stage
    }

    /// What comes next of a variable.
    #[tactic(auto, using(crate::proofs::Asking::value_wide))]
    fn next_of(&self, leaf: Leaf<'_>) -> Ask
        ensures asks { (above : List ℕ) (m : Member) → IsLeaf leaf.entry m → IsStage m self.now.stage → AsksFirst result (stage_wants above m self.now.stage) }
        ensures empty { width_of result ≡ 0 → stage_rank self.now.stage ≡ 1 }
    {
        match leaf {
            Leaf::Scalar(column) => Ask::Value(column.base),
            Leaf::Array(array) => match self.stage {
                Stage::Elements(_, _) => element(array.base),
                Stage::Again(count) => Ask::Count(u64::from(count)),
                Stage::Filler(count) => Ask::Filler(fill(count)),
                _ => Ask::Count(elements(array.dims.items())),
            },
            Leaf::Sequence(_, columns) => match self.stage {
                Stage::Cells(_, at) => match columns.get(at) {
                    Some(column) => Ask::Value(column.base),
                    None => Ask::Mark,
                },
                _ => Ask::Mark,
            },
        }
    }

    /// What comes next.
    pub fn next(&self, decls: &[Decl]) -> Next
        ensures next { IsPlaced (members_view decls.now) self.now → IsNext result (wants_left (members_view decls.now) self.now) self.now.text }
        ensures bytes { WhereBytes (λ left. (size : ℕ) × (self.now.text ≡ Text.Bytes left size)) result }
        ensures empty { WhereField (λ ask. width_of ask ≡ 0 → MayBeEmpty (members_view decls.now) self.now) result }
    {
        match self.text {
            Text::Bytes(left, _) => Next::Bytes(left),
            Text::Padding(size) => Next::Field(Ask::Padding(fill(size))),
            Text::Nothing => match leaf_at(decls, self.path()) {
                Some(leaf) => Next::Field(self.next_of(leaf)),
                None => Next::Nothing,
            },
        }
    }

    /// The numbers that come next, where they are elements of an array.
    pub fn numbers(&self, decls: &[Decl]) -> Option<Run>
        ensures number { IfSome result (λ run. IsNumber run.base) }
        ensures numbers { IsPlaced (members_view decls.now) self.now → IfSome result (λ run. AreElements run.base run.count (wants_left (members_view decls.now) self.now)) }
        ensures elements { IfSome result (λ run. HasElements self.now run.count) }
    {
        match self.stage {
            Stage::Elements(at, count) => match self.text {
                Text::Nothing => self.numbers_of(decls, count.saturating_sub(at)),
                _ => None,
            },
            _ => None,
        }
    }

    /// The same of so many elements.
    fn numbers_of(&self, decls: &[Decl], count: u32) -> Option<Run>
        ensures numbers { (at all : ℕ) → self.now.stage ≡ Stage.Elements at all → self.now.text ≡ Text.Nothing → count ≡ all - at → IsPlaced (members_view decls.now) self.now →
            IfSome result (λ run. AreElements run.base run.count (wants_left (members_view decls.now) self.now)) }
        ensures number { IfSome result (λ run. IsNumber run.base) }
        ensures count { IfSome result (λ run. run.count ≡ count) }
    {
        match leaf_at(decls, self.path()) {
            Some(leaf) => run_of(leaf, count),
            None => None,
        }
    }

    /// So many of the numbers that come next were read.
    pub fn pass(&mut self, decls: &[Decl], more: u32)
        ensures wants { HaveRoom 0 (members_view decls.now) → IsPlaced (members_view decls.now) self.old → HasElements self.old more →
            (wants_left (members_view decls.now) self.new ≡ drop more (wants_left (members_view decls.now) self.old)) × IsPlaced (members_view decls.now) self.new }
        ensures rank { HasElements self.old more → stage_rank self.new.stage ≤ 1 }
        ensures marks { (n : ℕ) → HasElements self.old more → HaveMarks self.new.stage n }
        ensures text { self.new.text ≡ self.old.text }
    {
        match self.stage {
            Stage::Elements(from, count) => self.pass_from(decls, from, count, more),
            _ => {}
        }
    }

    /// The same of the elements from one on, of so many.
    fn pass_from(&mut self, decls: &[Decl], from: u32, count: u32, more: u32)
        ensures wants { HaveRoom 0 (members_view decls.now) → IsPlaced (members_view decls.now) self.old → self.old.stage ≡ Stage.Elements from count → self.old.text ≡ Text.Nothing → more ≤ count - from →
            (wants_left (members_view decls.now) self.new ≡ drop more (wants_left (members_view decls.now) self.old)) × IsPlaced (members_view decls.now) self.new }
        ensures rank { self.old.stage ≡ Stage.Elements from count → stage_rank self.new.stage ≤ 1 }
        ensures marks { (n : ℕ) → self.old.stage ≡ Stage.Elements from count → HaveMarks self.new.stage n }
        ensures text { self.new.text ≡ self.old.text }
    {
        let at = from.saturating_add(more);
        match leaf_at(decls, self.path()) {
            Some(leaf) => {
                let stage = elements_from(leaf, at, count);
                self.settle(decls, stage);
            }
            None => {}
        }
    }

    /// So many bytes of a string were read.
    pub fn skip(&mut self, count: u32)
        ensures text { self.new.text ≡ text_behind count self.old.text }
        ensures path { self.new.path.items ≡ self.old.path.items }
        ensures stage { self.new.stage ≡ self.old.stage }
    {
        if let Text::Bytes(left, size) = self.text {
            if count < left {
                self.text = Text::Bytes(left - count, size);
            } else {
                self.text = Text::Padding(size);
            }
        }
    }

    /// The variable is read so far: goes on to the next one where it is read.
    fn settle(&mut self, decls: &[Decl], stage: Stage)
        ensures rank { stage_rank self.new.stage ≤ stage_rank stage }
        ensures settled { HaveRoom 0 (members_view decls.now) → IsSettled (members_view decls.now) self.old stage self.new }
        ensures marks { (n : ℕ) → HaveMarks stage n → HaveMarks self.new.stage n }
        ensures text { self.new.text ≡ self.old.text }
    {
        match stage {
            Stage::Behind => {
                advance(decls, 0, &mut self.path);
                self.stage = Stage::Start;
            }
            _ => self.stage = stage,
        }
    }

    /// How far the variable is read behind a token.
    fn behind(&self, leaf: Leaf<'_>, token: Token) -> Stage
        ensures rank { stage_rank self.now.stage ≡ 1 → stage_rank result ≡ 0 }
        ensures moves { (above : List ℕ) (m : Member) → IsLeaf leaf.entry m → IsStage m self.now.stage → IsEarly self.now.stage → Moves above m self.now.stage token result }
        ensures marks { (n : ℕ) → HaveMarks self.now.stage n → HaveMarks result (n + mark_bytes token) }
    {
        match leaf {
            Leaf::Scalar(_) => Stage::Behind,
            Leaf::Array(decl) => behind_in_array(decl, self.stage),
            Leaf::Sequence(_, columns) => behind_in_rows(columns.len(), self.stage, token),
        }
    }

    /// A field was read.
    pub fn step(&mut self, decls: &[Decl], token: Token)
        ensures fresh { IsFresh self.old.text → IsFresh self.new.text }
        ensures rank { MayBeEmpty (members_view decls.now) self.old → token ≡ Token.Zeros → rank self.new < rank self.old }
        ensures wants { (w : Want) (ws : List Want) (f : Field) → HaveRoom 0 (members_view decls.now) → IsPlaced (members_view decls.now) self.old → IsEarly self.old.stage →
            wants_left (members_view decls.now) self.old ≡ w ∷ ws → Goes w f → Is token f → wants_left (members_view decls.now) self.new ≡ becomes w f ++ ws }
        ensures placed { (w : Want) (ws : List Want) (f : Field) → HaveRoom 0 (members_view decls.now) → IsPlaced (members_view decls.now) self.old → IsEarly self.old.stage →
            wants_left (members_view decls.now) self.old ≡ w ∷ ws → Goes w f → Is token f → IsPlaced (members_view decls.now) self.new }
        ensures marks { (n : ℕ) → HaveMarks self.old.stage n → HaveMarks self.new.stage (n + mark_bytes token) }
    {
        match self.text {
            Text::Padding(_) => self.text = Text::Nothing,
            Text::Bytes(_, _) => {}
            Text::Nothing => self.step_value(decls, token),
        }
    }

    /// The same where no string is read.
    fn step_value(&mut self, decls: &[Decl], token: Token)
        ensures fresh { IsFresh self.old.text → IsFresh self.new.text }
        ensures rank { (s : Spot) → self.old.text ≡ Text.Nothing → stage_rank self.old.stage ≡ 1 → spot_at (members_view decls.now) self.old ≡ Some s → token ≡ Token.Zeros → rank self.new < rank self.old }
        ensures wants { (w : Want) (ws : List Want) (f : Field) → self.old.text ≡ Text.Nothing → HaveRoom 0 (members_view decls.now) → IsPlaced (members_view decls.now) self.old → IsEarly self.old.stage →
            wants_left (members_view decls.now) self.old ≡ w ∷ ws → Goes w f → Is token f → wants_left (members_view decls.now) self.new ≡ becomes w f ++ ws }
        ensures placed { (w : Want) (ws : List Want) (f : Field) → self.old.text ≡ Text.Nothing → HaveRoom 0 (members_view decls.now) → IsPlaced (members_view decls.now) self.old → IsEarly self.old.stage →
            wants_left (members_view decls.now) self.old ≡ w ∷ ws → Goes w f → Is token f → IsPlaced (members_view decls.now) self.new }
        ensures marks { (n : ℕ) → HaveMarks self.old.stage n → HaveMarks self.new.stage (n + mark_bytes token) }
    {
        match leaf_at(decls, self.path()) {
            Some(leaf) => {
                let stage = self.behind(leaf, token);
                self.text = behind_token(token);
                self.settle(decls, stage);
            }
            None => {}
        }
    }
}

/// Behind the length of a string come its bytes.
fn behind_token(token: Token) -> Text
    ensures { result ≡ string_behind token }
{
    match token {
        Token::Size(size) => Text::Bytes(size, size),
        _ => Text::Nothing,
    }
}

/// How far an array is read behind the next field.
fn behind_in_array(decl: &ArrayDecl, stage: Stage) -> Stage
    ensures rank { stage_rank stage ≡ 1 → stage_rank result ≡ 0 }
    ensures moves { (above : List ℕ) (t : Token) → IsStage (array decl.now) stage → Moves above (array decl.now) stage t result }
    ensures marks { (n : ℕ) → HaveMarks result n }
{
    match stage {
        Stage::Elements(at, count) => behind_element(decl, at, count),
        Stage::Again(count) => behind_elements(decl, 0, count),
        Stage::Filler(_) => Stage::Behind,
        _ => behind_count(decl),
    }
}

/// How far a Sequence with so many columns is read behind the next field.
fn behind_in_rows(columns: usize, stage: Stage, token: Token) -> Stage
    ensures rank { stage_rank result ≡ 0 }
    ensures moves { (above name : List ℕ) (cs : List Column) → columns ≡ length cs → IsStage (sequence name cs) stage → IsEarly stage → Moves above (sequence name cs) stage token result }
    ensures marks { (n : ℕ) → HaveMarks stage n → HaveMarks result (n + mark_bytes token) }
{
    match stage {
        Stage::Cells(row, at) => behind_cells(columns, row, at.saturating_add(1)),
        Stage::Rows(row) => behind_mark(columns, row, token),
        _ => behind_mark(columns, 0, token),
    }
}

/// Behind the mark before a row, or the last one.
fn behind_mark(columns: usize, row: u64, token: Token) -> Stage
    ensures rank { stage_rank result ≡ 0 }
    ensures moves { (above name : List ℕ) (cs : List Column) → columns ≡ length cs → row + 1 < 2 ^ 64 → Moves above (sequence name cs) (Stage.Rows row) token result }
    ensures marks { (n : ℕ) → 4 * row ≤ n → HaveMarks result (n + mark_bytes token) }
{
    match token {
        Token::Row => behind_cells(columns, row, 0),
        _ => Stage::Behind,
    }
}

/// Behind the first count of an array: strings have no other.
fn behind_count(decl: &ArrayDecl) -> Stage
    ensures wants { (above : List ℕ) → product (sizes decl.now) < 2 ^ 32 → wants_of_array above decl.now ≡ a_count (product (sizes decl.now)) ∷ stage_wants above (array decl.now) result }
    ensures stage { product (sizes decl.now) < 2 ^ 32 → IsStageOr (array decl.now) result }
    ensures marks { (n : ℕ) → HaveMarks result n }
{
    let count = elements(decl.dims.items()).min(0xffff_ffff) as u32;
    if is_text(decl.base) {
        behind_elements(decl, 0, count)
    } else {
        Stage::Again(count)
    }
}

/// Behind an element of an array.
fn behind_element(decl: &ArrayDecl, at: u32, count: u32) -> Stage
    ensures moves { (above : List ℕ) (t : Token) → IsStage (array decl.now) (Stage.Elements at count) → Moves above (array decl.now) (Stage.Elements at count) t result }
    ensures marks { (n : ℕ) → HaveMarks result n }
{
    behind_elements(decl, at.saturating_add(1), count)
}

/// Before an element of an array.
fn behind_elements(decl: &ArrayDecl, at: u32, count: u32) -> Stage
    ensures wants { (above : List ℕ) → at ≤ count → stage_wants above (array decl.now) result ≡ elements_wants decl.now.base (above ++ decl.now.name) (sizes decl.now) at count }
    ensures stage { at ≤ count → count ≡ product (sizes decl.now) → IsStageOr (array decl.now) result }
    ensures marks { (n : ℕ) → HaveMarks result n }
{
    if at < count {
        return Stage::Elements(at, count);
    }
    match decl.base {
        BaseType::Byte => Stage::Filler(count),
        _ => Stage::Behind,
    }
}

/// Before a cell of a row.
fn behind_cells(columns: usize, row: u64, at: usize) -> Stage
    ensures rank { stage_rank result ≡ 0 }
    ensures wants { (above name : List ℕ) (cs : List Column) → columns ≡ length cs → row + 1 < 2 ^ 64 →
        stage_wants above (sequence name cs) result ≡ cell_wants (row_path above name row) (drop at cs) ++ rows above name cs (row + 1) ∷ [] }
    ensures stage { (name : List ℕ) (cs : List Column) → columns ≡ length cs → IsStageOr (sequence name cs) result }
    ensures marks { (n : ℕ) → 4 * row + 4 ≤ n → HaveMarks result n }
{
    if at < columns {
        return Stage::Cells(row, at);
    }
    Stage::Rows(row.saturating_add(1))
}
