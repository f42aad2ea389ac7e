//! What the definitions promise of one another.

ghost use Rattle.join_source.specs.Alone.{OneIsItself};
ghost use Rattle.join_source.specs.Cutting.{JoinedCuts};
ghost use Rattle.join_source.specs.Halves.{HalvesAreTheWhole};
ghost use Rattle.join_source.specs.Members.{EmptyAddsNothing, LeavesAreAlike, NumbersAreKept};
ghost use Rattle.join_source.specs.Sent.{LeavesAreSent};
ghost use Rattle.join_source.specs.Served.{JoinedFits, JoinedHasWords};

/// The values of a cut of joined arrays are those of the cuts of each by its own part of the first hyperslab, one
/// behind the other.
pub fn joined_cuts()
    ensures law { JoinedCuts }
{}

/// The XDR of what a constraint leaves of a dataset is that of its marked leaves, whatever the values of each
/// variable.
pub fn leaves_are_sent()
    ensures law { LeavesAreSent }
{}

/// Joined to no other, a file gives its own dataset and its own values.
pub fn one_is_itself()
    ensures law { OneIsItself }
{}

/// The leaves of joined files have the numbers that they have in each of them.
pub fn leaves_are_alike()
    ensures law { LeavesAreAlike }
{}

/// With another number of records, which an array may have, each leaf keeps its number and its variable.
pub fn numbers_are_kept()
    ensures law { NumbersAreKept }
{}

/// The values of joined files are values of their dataset.
pub fn joined_fits()
    ensures law { JoinedFits }
{}

/// The names in the dataset of joined files are words.
pub fn joined_has_words()
    ensures law { JoinedHasWords }
{}

/// A file that was cut in two along its records is given back where both are joined.
pub fn halves_are_the_whole()
    ensures law { HalvesAreTheWhole }
{}

/// A file without records, of the shape of the first one, adds nothing to joined files.
pub fn empty_adds_nothing()
    ensures law { EmptyAddsNothing }
{}
