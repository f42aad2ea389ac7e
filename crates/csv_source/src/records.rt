ghost use Rattle.std.specs.Prelude.{◌≡◌, ◌++◌, ◌∷◌, [], ℕ, List, IfErr, IfOk};
ghost use Rattle.std.specs.Bool.{MatchBool};
ghost use Rattle.csv.specs.Reading.{error_kind};
ghost use Rattle.csv.specs.Records.{fields_of};
ghost use Rattle.csv_source.specs.Csv.{csv_records};
ghost use Rattle.csv_source.specs.inner.Standing.{IsIoOrMemory, Stands};

use csv::{ByteRecord, Error, Reader, ReaderBuilder};
use std::alloc::Global;

/// A reader of all records of a file, of whatever lengths they are.
pub(crate) fn open(alloc: Global, bytes: &[u8]) -> Reader<&[u8]>
    ensures { Stands bytes.now [] result }
{
    ReaderBuilder::new()
        .has_headers(false)
        .flexible(true)
        .from_reader(alloc, bytes)
}

/// Reads the next record, if there is one. Fails only for the bytes' own reader and where memory is
/// wanted.
pub(crate) fn next_record(reader: &mut Reader<&[u8]>, into: &mut ByteRecord) -> Result<bool, Error>
    ensures reads { IfOk result (λ found. (bytes : List ℕ) (done : List (List (List ℕ))) → Stands bytes done reader.old → MatchBool found (Stands bytes (done ++ fields_of into.new ∷ []) reader.new) (csv_records bytes ≡ done)) }
    ensures why { IfErr result (λ e. (bytes : List ℕ) (done : List (List (List ℕ))) → Stands bytes done reader.old → IsIoOrMemory (error_kind e)) }
{
    reader.read_byte_record(into)
}
