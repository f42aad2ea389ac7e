//! Laws of texts of a DAS, apart from any run of the reader.

ghost use Rattle.std.specs.Prelude.{◌≡◌, ℕ, ◌≤◌, ◌⊎◌, List, length};
ghost use Rattle.das_text.specs.Das.{das};
ghost use Rattle.das_text.specs.Model.{Attributes};
ghost use Rattle.das_text.specs.Reading.{limit, DasOf, IsBad, IsCut, IsTrailing};
ghost use Rattle.das_text.specs.Words.{HasWords};

/// A text is a DAS that says one thing, or bad at one place, or followed by something else at one
/// place, or cut, and no two of these.
pub fn one_reading()
    ensures one_das { (text : List ℕ) (one other : Attributes) → DasOf text one → DasOf text other → one ≡ other }
    ensures one_bad_place { (text : List ℕ) (place other : ℕ) → IsBad text place → IsBad text other → place ≡ other }
    ensures one_trailing_place { (text : List ℕ) (place other : ℕ) → IsTrailing text place → IsTrailing text other → place ≡ other }
    ensures das_not_bad { (text : List ℕ) (a : Attributes) (place : ℕ) → DasOf text a → IsBad text place → ⊥ }
    ensures das_not_trailing { (text : List ℕ) (a : Attributes) (place : ℕ) → DasOf text a → IsTrailing text place → ⊥ }
    ensures das_not_cut { (text : List ℕ) (a : Attributes) → DasOf text a → IsCut text → ⊥ }
    ensures bad_not_trailing { (text : List ℕ) (place other : ℕ) → IsBad text place → IsTrailing text other → ⊥ }
    ensures bad_not_cut { (text : List ℕ) (place : ℕ) → IsBad text place → IsCut text → ⊥ }
    ensures trailing_not_cut { (text : List ℕ) (place : ℕ) → IsTrailing text place → IsCut text → ⊥ }
{}

/// Each text is one of these.
pub fn every_reading()
    ensures law { (text : List ℕ) → ((a : Attributes) × DasOf text a) ⊎ ((place : ℕ) × IsBad text place) ⊎ ((place : ℕ) × IsTrailing text place) ⊎ IsCut text }
{}

/// Attributes whose names and plain values are words, with containers alone at the top, nested at
/// most 16 deep, and whose printed text is within the limit, are read back from it.
pub fn read_back()
    ensures law { (a : Attributes) → HasWords a → length (das a) ≤ limit → DasOf (das a) a }
{}
