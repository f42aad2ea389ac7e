ghost use Rattle.csv_source.specs.Laws.{OneAnswer, TableFits, TableHasWords, TableIsWellFormed, TableOrCause, TypedByLastColon};

/// The type of a header's field is the word behind its last `:`.
pub fn typed_by_last_colon()
    ensures law { TypedByLastColon }
{}

/// A file has a table, or a first cause.
pub fn table_or_cause()
    ensures law { TableOrCause }
{}

/// It has one of them alone.
pub fn one_answer()
    ensures law { OneAnswer }
{}

/// The dataset of a table is well formed.
pub fn table_is_well_formed()
    ensures law { TableIsWellFormed }
{}

/// The values of a table are values of its dataset.
pub fn table_fits()
    ensures law { TableFits }
{}

/// The names in the dataset of a table are words, where something of the file's name is left without
/// its directories and its `.csv`.
pub fn table_has_words()
    ensures law { TableHasWords }
{}
