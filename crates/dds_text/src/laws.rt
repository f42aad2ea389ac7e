//! Laws of texts of a DDS, apart from any run of the reader.

ghost use Rattle.std.specs.Prelude.{◌≡◌, ℕ, ◌-◌, ◌≤◌, ◌⊎◌, List, ◌++◌, length};
ghost use Rattle.dap_types.specs.Model.{Dataset};
ghost use Rattle.dap_types.specs.WellFormed.{IsWellFormed};
ghost use Rattle.dap_model.specs.Dds.{dds};
ghost use Rattle.dap_model.specs.Grammar.{HasWords, IsBadAt};
ghost use Rattle.dds_text.specs.Reading.{limit, IsEnded, IsBadText, IsDone, IsUnfinished};

/// Bytes hold one text of one dataset, or are bad at one place, or are unfinished. Where a text ends
/// among them, the first bad token stands behind its end.
pub fn one_reading()
    ensures one_end { (bytes : List ℕ) (n m : ℕ) (one other : Dataset) → IsDone bytes n one → IsDone bytes m other → (n ≡ m) × (one ≡ other) }
    ensures one_place { (bytes : List ℕ) (place other : ℕ) → IsBadText bytes place → IsBadText bytes other → place ≡ other }
    ensures bad_behind_end { (bytes : List ℕ) (n place : ℕ) (dataset : Dataset) → IsEnded bytes n dataset → IsBadAt bytes place → n ≤ place }
    ensures done_not_bad { (bytes : List ℕ) (n place : ℕ) (dataset : Dataset) → IsDone bytes n dataset → IsBadText bytes place → ⊥ }
    ensures done_not_unfinished { (bytes : List ℕ) (n : ℕ) (dataset : Dataset) → IsDone bytes n dataset → IsUnfinished bytes → ⊥ }
    ensures bad_not_unfinished { (bytes : List ℕ) (place : ℕ) → IsBadText bytes place → IsUnfinished bytes → ⊥ }
{}

/// Any bytes hold a text of a dataset, or are bad at a place, or are unfinished.
pub fn every_reading()
    ensures law { (bytes : List ℕ) → ((n : ℕ) × (dataset : Dataset) × IsDone bytes n dataset) ⊎ ((place : ℕ) × IsBadText bytes place) ⊎ IsUnfinished bytes }
{}

/// A well-formed dataset whose names are words, and whose printed text is within the limit, is read
/// back from it, up to its last semicolon, whatever follows.
pub fn read_back()
    ensures law { (dataset : Dataset) (more : List ℕ) → HasWords dataset → IsWellFormed dataset → length (dds dataset) ≤ limit → IsDone (dds dataset ++ more) (length (dds dataset) - 1) dataset }
{}
