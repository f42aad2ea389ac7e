use std::fmt;

/// Why a stored file has no dataset. Places are bytes from the front of the file, from 0; variables,
/// columns and rows are counted from 1, members each before its parts.
#[derive(Clone, Copy, Debug, PartialEq, Eq)]
pub enum FileCause {
    /// No `CDF` with version 1, 2 or 5 at the front (netCDF classic format, magic).
    NotCdf,
    /// The number of records is that of a stream (netCDF classic format, numrecs).
    Streaming,
    /// This field of the header holds what it must not.
    BadField { place: u64 },
    /// The file ends within its header.
    HeaderCut,
    /// The header does not end within 1,048,576 bytes, this project's limit.
    HeaderTooLong,
    /// A value of this variable stands past the end of the file.
    PastEnd { var: u32 },
    /// A table of more than 67,108,864 bytes, this project's limit.
    TooLong,
    /// A table without a header record (RFC 4180).
    NoHeader,
    /// A table of more than 1,024 columns, this project's limit.
    TooWide,
    /// An earlier column has this column's name.
    RepeatedColumn { column: u32 },
    /// This row has another number of fields than the header.
    Ragged { row: u32 },
    /// This cell is no value of its column's type.
    BadCell { row: u32, column: u32 },
    /// A saved data response of more than 67,108,864 bytes, this project's limit.
    SavedTooLong,
    /// What was saved is no data response (DAP 2.0, DODS): here stands what is wrong first.
    BadBody { place: u64 },
    /// This member of a saved data response has the name of an earlier one of its level.
    RepeatedName { member: u32 },
    /// A list of more than 65,536 bytes, this project's limit.
    JoinTooLong,
    /// This line of a list, from 1, is no name of a netCDF file, is line 65, or is line 1 of an empty list.
    BadLine { line: u32 },
    /// There is no file of the name in this line of a list.
    NoMember { line: u32 },
    /// The file of the name in this line of a list has no dataset.
    BadMember { line: u32 },
    /// The first file of a list has no record dimension (netCDF classic format).
    NoRecord,
    /// The file in this line of a list has other dimensions or variables than the first.
    Differs { line: u32 },
    /// The files of a list have more than 2,147,483,647 records.
    TooManyRecords,
}

impl fmt::Display for FileCause {
    ghost use Rattle.std.specs.Prelude.{Some};
    ghost use Rattle.dap_errors.specs.Causes.{file_cause_text};

    ghost output = { λ cause. Some (file_cause_text cause) };

    fn fmt<W: fmt::Write>(&self, f: &mut fmt::Formatter<W>) -> fmt::Result {
        match self {
            FileCause::NotCdf => f.write_str("not netCDF classic"),
            FileCause::Streaming => f.write_str("streaming record count"),
            FileCause::BadField { place } => write!(f, "bad field at {place}"),
            FileCause::HeaderCut => f.write_str("header cut"),
            FileCause::HeaderTooLong => f.write_str("header too long"),
            FileCause::PastEnd { var } => write!(f, "variable {var} past the end"),
            FileCause::TooLong => f.write_str("table too long"),
            FileCause::NoHeader => f.write_str("no header record"),
            FileCause::TooWide => f.write_str("too many columns"),
            FileCause::RepeatedColumn { column } => write!(f, "repeated column {column}"),
            FileCause::Ragged { row } => write!(f, "ragged row {row}"),
            FileCause::BadCell { row, column } => {
                write!(f, "bad cell in row {row} column {column}")
            }
            FileCause::SavedTooLong => f.write_str("saved response too long"),
            FileCause::BadBody { place } => write!(f, "bad body at {place}"),
            FileCause::RepeatedName { member } => write!(f, "repeated name in member {member}"),
            FileCause::JoinTooLong => f.write_str("join too long"),
            FileCause::BadLine { line } => write!(f, "bad line {line}"),
            FileCause::NoMember { line } => write!(f, "no member in line {line}"),
            FileCause::BadMember { line } => write!(f, "bad member in line {line}"),
            FileCause::NoRecord => f.write_str("no record dimension"),
            FileCause::Differs { line } => write!(f, "member {line} differs"),
            FileCause::TooManyRecords => f.write_str("too many records"),
        }
    }
}
