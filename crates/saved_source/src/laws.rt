//! Laws of saved responses, apart from any run.

ghost use Rattle.saved_source.specs.Laws.{SavedFits, SavedHasWords, SavedIsWellFormed, WrittenIsSaved};

/// The dataset of a saved response is well formed.
pub fn saved_is_well_formed()
    ensures law { SavedIsWellFormed }
{}

/// The values of a saved response are values of its dataset.
pub fn saved_fits()
    ensures law { SavedFits }
{}

/// The names in the dataset of a saved response are words.
pub fn saved_has_words()
    ensures law { SavedHasWords }
{}

/// A response that was written keeps its dataset and its values where it is saved.
pub fn written_is_saved()
    ensures law { WrittenIsSaved }
{}
