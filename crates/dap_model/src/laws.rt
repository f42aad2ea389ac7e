ghost use Rattle.dap_model.specs.Laws.{WellFormedWithoutFault, ConstrainedFits, ConstrainedIsWellFormed, WholeStays, CutHasCounts, CutPicks, CutIsNested, XdrSpells, NumbersHaveLength, PathsDiffer, OneDataset, UnbrokenIsWellFormed, BrokenByFront, PrintIsRead, OneText, BodyIsRead, OneSpelling, OneKindFollows, OneVerdict};

/// A dataset keeps every rule exactly where it has no first fault.
pub fn well_formed_without_fault()
    ensures law { WellFormedWithoutFault }
{}

/// What a constraint leaves of values that fit, fits what it leaves of their dataset.
pub fn constrained_fits()
    ensures law { ConstrainedFits }
{}

/// What a constraint leaves of a well-formed dataset is well formed.
pub fn constrained_is_well_formed()
    ensures law { ConstrainedIsWellFormed }
{}

/// A constraint that marks every leaf whole and keeps every row leaves all as it was.
pub fn whole_stays()
    ensures law { WholeStays }
{}

/// A cut array has as many elements as the product of the counts of its hyperslabs.
pub fn cut_has_counts()
    ensures law { CutHasCounts }
{}

/// The values of a cut array are picked dimension by dimension, in row-major order.
pub fn cut_picks()
    ensures law { CutPicks }
{}

/// To cut the values of an array is to cut their nested list.
pub fn cut_is_nested()
    ensures law { CutIsNested }
{}

/// The XDR of values is one of their spellings.
pub fn xdr_spells()
    ensures law { XdrSpells }
{}

/// The XDR of an array of numbers has the bytes of its two counts and of its elements, up to a
/// multiple of four.
pub fn numbers_have_length()
    ensures law { NumbersHaveLength }
{}

/// In a well-formed dataset different members have different paths.
pub fn paths_differ()
    ensures law { PathsDiffer }
{}

/// The tokens of a DDS stand for at most one dataset.
pub fn one_dataset()
    ensures law { OneDataset }
{}

/// The tokens of a DDS break none of the rules exactly where their dataset is well formed.
pub fn unbroken_is_well_formed()
    ensures law { UnbrokenIsWellFormed }
{}

/// Whether a token breaks a rule does not depend on the tokens that follow it.
pub fn broken_by_front()
    ensures law { BrokenByFront }
{}

/// A printed DDS of words is a DDS text of its dataset, up to the line feed behind its last `;`.
pub fn print_is_read()
    ensures law { PrintIsRead }
{}

/// Two well-formed datasets of words with one DDS text are the same.
pub fn one_text()
    ensures law { OneText }
{}

/// A body that is sent is one that is read, within the limits on its text and its length.
pub fn body_is_read()
    ensures law { BodyIsRead }
{}

/// Bytes spell at most one list of values of a dataset, and no spelling is a proper front of another.
pub fn one_spelling()
    ensures law { OneSpelling }
{}

/// The fields that may follow good fields have one width and one fault.
pub fn one_kind_follows()
    ensures law { OneKindFollows }
{}

/// The values that bytes hold have one bad field at most, and are bad, open or ended in one way only.
pub fn one_verdict()
    ensures law { OneVerdict }
{}
