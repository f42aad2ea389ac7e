//! What the definitions promise of one another.

ghost use Rattle.netcdf_writer.specs.Laws.{FirstBytesDecide, NamesAreUndone, ReadsBack, ReadsSame, UndoneAreBytes};

/// A name is undone to the bytes whose escape it is, and to no others (DAP 2.0, identifiers).
pub fn names_are_undone()
    ensures law { NamesAreUndone }
{}

/// What a name is undone to are bytes.
pub fn undone_are_bytes()
    ensures law { UndoneAreBytes }
{}

/// The file of a dataset is read back: its header has no fault, and its variables are those of the
/// dataset, with their values (netCDF classic format specification).
pub fn reads_back()
    ensures law { ReadsBack }
{}

/// A file that is stored again, out of its dataset and its values, has the same dataset and values.
pub fn reads_same()
    ensures law { ReadsSame }
{}

/// What is wrong with the first bytes of a longer body, as many as are saved, is what is wrong with all of it, unless
/// they are white space and the front of a word alone.
pub fn first_bytes_decide()
    ensures law { FirstBytesDecide }
{}
