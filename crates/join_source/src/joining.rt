ghost use Rattle.std.specs.Prelude.{◌≡◌, ◌≢◌, ◌≤◌, ◌<◌, ◌+◌, All, IfErr, IfOk, IsOk, IsTrue, MatchOption, None, length, map, min};
ghost use Rattle.dap_types.specs.View.{dataset_view};
ghost use Rattle.dap_types.specs.WellFormed.{IsWellFormed};
ghost use Rattle.das_text.specs.View.{attributes_view};
ghost use Rattle.netcdf_source.specs.Mapping.{records_of, HaveSameShape};
ghost use Rattle.join_source.specs.Causes.{FirstToDiffer, IsCause};
ghost use Rattle.join_source.specs.Joins.{headers_in, members_in, name_in};
ghost use Rattle.join_source.specs.Members.{CanJoin, all_records, contents_of, first_of, joined_attributes, joined_dataset};
ghost use Rattle.join_source.specs.declared.refusal.JoinRefusal.TheVariants.{Memory as WantOfMemory};

use crate::{JoinRefusal, Joined};
use dap_types::{Bytes, Dataset, List, Memory, limits};
use das_text::Attributes;
use netcdf_source::Header;
use std::alloc::Global;

/// The most records of all files.
const MOST_RECORDS: u64 = limits::MOST_ELEMENTS;

/// Joins files along the record dimension, by their headers. `file_name` is the name of the list.
///
/// # Errors
///
/// The first of `NoRecord`, `Differs` and `TooManyRecords`, or `Memory` where memory was wanted.
pub fn join(alloc: Global, headers: List<Header>, file_name: &[u8]) -> Result<Joined, JoinRefusal>
    requires some { 1 ≤ length headers }
    requires many { length headers ≤ 64 }
    ensures headers { IfOk result (λ j. headers_in j ≡ headers) }
    ensures name { IfOk result (λ j. name_in j ≡ file_name.now) }
    ensures can_join { IfOk result (λ j. CanJoin (members_in j)) }
    ensures first_cause { IfErr result (IsCause (contents_of headers)) }
{
    let items = headers.items();
    if items[0].records().is_none() {
        return Err(JoinRefusal::NoRecord);
    }
    if let Some(line) = first_to_differ(items) {
        return Err(JoinRefusal::Differs { line });
    }
    let records = sum_of(items);
    if records > MOST_RECORDS {
        return Err(JoinRefusal::TooManyRecords);
    }
    let file_name = Bytes::new(alloc, file_name)?;
    Ok(Joined {
        headers,
        file_name,
        records,
    })
}

/// The number, from 1, of the first header that has not the shape of the first one.
fn first_to_differ(headers: &[Header]) -> Option<u32>
    requires some { 1 ≤ length headers.now }
    requires many { length headers.now ≤ 64 }
    ensures { MatchOption result (All (HaveSameShape (first_of (contents_of headers.now))) (contents_of headers.now)) (λ line. FirstToDiffer (contents_of headers.now) line) }
{
    for (k, header) in headers.iter().enumerate() {
        if !headers[0].same_shape(header) {
            return Some(k as u32 + 1);
        }
    }
    None
}

/// The records of all headers, or one more than there may be.
fn sum_of(headers: &[Header]) -> u64
    requires { All (λ h. records_of h.contents ≢ None) headers.now }
    ensures { result ≡ min (all_records (contents_of headers.now)) 2147483648 }
{
    let mut records: u64 = 0;
    for header in headers {
        let own = header.records().unwrap_or(0);
        records = records.saturating_add(own).min(MOST_RECORDS + 1);
    }
    records
}

impl Joined {
    /// The dataset of the files: that of the first, with the records of all (DAP 2.0, DDS).
    pub fn dataset(&self, alloc: Global) -> Result<Dataset, Memory>
        ensures joined { IfOk result (λ d. dataset_view d ≡ joined_dataset (members_in self.now) (name_in self.now)) }
        ensures well_formed { IfOk result (λ d. IsWellFormed (dataset_view d)) }
    {
        self.headers.items()[0].dataset_with(alloc, self.file_name.bytes(), self.records)
    }

    /// The attributes of the first file (DAP 2.0, DAS).
    pub fn attributes(&self, alloc: Global) -> Result<Attributes, Memory>
        ensures { IfOk result (λ a. attributes_view a ≡ joined_attributes (members_in self.now)) }
    {
        self.headers.items()[0].attributes(alloc)
    }
}
