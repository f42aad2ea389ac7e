//! The bytes of the file.

ghost use Rattle.std.specs.Prelude.{◌≡◌, ◌+◌, ◌*◌, ◌%◌, ◌^◌, ◌++◌, ◌≤◌, ◌<◌, IfOk, OnOk};
ghost use Rattle.soak.specs.File.{bytes_at, header, soak_bytes, state};

use dap_types::{Bytes, Memory};
use std::alloc::Global;

/// Of a generator whose period is 2^64 (Knuth, MMIX).
const FACTOR: u64 = 6_364_136_223_846_793_005;

const TERM: u64 = 1_442_695_040_888_963_407;

/// The values of a variable in a record.
const PER_RECORD: u32 = 1_024;

/// The header in front of the number of records, and behind it.
const MAGIC: &[u8; 4] = b"CDF\x01";

const DESCRIBED: &[u8; 148] = b"\0\0\0\x0a\0\0\0\x03\
\0\0\0\x01t\0\0\0\0\0\0\0\
\0\0\0\x01y\0\0\0\0\0\0\x20\
\0\0\0\x01x\0\0\0\0\0\0\x20\
\0\0\0\0\0\0\0\0\
\0\0\0\x0b\0\0\0\x02\
\0\0\0\x01s\0\0\0\0\0\0\x03\0\0\0\0\0\0\0\x01\0\0\0\x02\0\0\0\0\0\0\0\0\0\0\0\x03\0\0\x08\0\0\0\0\x9c\
\0\0\0\x01i\0\0\0\0\0\0\x03\0\0\0\0\0\0\0\x01\0\0\0\x02\0\0\0\0\0\0\0\0\0\0\0\x04\0\0\x10\0\0\0\x08\x9c";

/// The state behind a state.
fn next(state: u64) -> u64
    ensures { result ≡ (6364136223846793005 * state + 1442695040888963407) % 2 ^ 64 }
{
    state.wrapping_mul(FACTOR).wrapping_add(TERM)
}

/// Appends the value of a state: a short for the first half of a record, and else an int.
fn push_value(bytes: &mut Vec<u8>, state: u64, in_record: u32) -> Result<(), Memory>
    ensures { OnOk result (bytes.new.items ≡ bytes.old.items ++ bytes_at in_record state) }
{
    if in_record < PER_RECORD {
        bytes.extend_from_slice(&((state >> 48) as u16).to_be_bytes())?;
    } else {
        bytes.extend_from_slice(&((state >> 32) as u32).to_be_bytes())?;
    }
    Ok(())
}

/// The header of a file of so many records.
fn header(alloc: Global, records: u32, room: usize) -> Result<Vec<u8>, Memory>
    ensures { IfOk result (λ v. v.items ≡ header records) }
{
    let mut bytes = Vec::with_capacity(alloc, room)?;
    bytes.extend_from_slice(MAGIC)?;
    bytes.extend_from_slice(&records.to_be_bytes())?;
    bytes.extend_from_slice(DESCRIBED)?;
    Ok(bytes)
}

/// The file of a seed and of so many records.
pub fn soak_file(alloc: Global, start: u64, records: u32) -> Result<Bytes, Memory>
    requires few { records ≤ 4096 }
    ensures { IfOk result (λ file. file ≡ soak_bytes start records) }
{
    let mut bytes = header(alloc, records, 156 + 6_144 * records as usize)?;
    let mut state = start;
    for value in 0..2 * PER_RECORD * records {
        state = next(state);
        push_value(&mut bytes, state, value % (2 * PER_RECORD))?;
    }
    Ok(Bytes::from_vec(bytes))
}
