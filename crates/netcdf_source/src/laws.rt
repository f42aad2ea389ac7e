ghost use Rattle.netcdf_source.specs.Laws.{LeavesAgree, ValuesFit, ValuesArePlaced, ZerosAreCut, OneVerdict, EachHasVerdict, DatasetHasWords, DatasetIsWellFormed};

/// The leaves of a header are those of its dataset: a member has a variable exactly where it is a
/// leaf, and it is the leaf of that variable, whatever the header and the name of the file.
pub fn leaves_agree()
    ensures law { LeavesAgree }
{}

/// The values of a file are values of its dataset.
pub fn values_fit()
    ensures law { ValuesFit }
{}

/// The values of a leaf are those that stand at the places of its layout.
pub fn values_are_placed()
    ensures law { ValuesArePlaced }
{}

/// The value of some chars is their bytes without the zero bytes at the end, and nothing else.
pub fn zeros_are_cut()
    ensures law { ZerosAreCut }
{}

/// The first bytes of a file are one header at most, or have one first cause, and never both.
pub fn one_verdict()
    ensures law { OneVerdict }
{}

/// Whatever the first bytes of a file, they are a header or have a first cause.
pub fn each_has_verdict()
    ensures law { EachHasVerdict }
{}

/// The names in the dataset of a file are words: those of its members, and its own where there is
/// something behind the last `/` of the file's name.
pub fn dataset_has_words()
    ensures law { DatasetHasWords }
{}

/// The dataset of a header is well formed, whatever the number of records.
pub fn dataset_is_well_formed()
    ensures law { DatasetIsWellFormed }
{}
