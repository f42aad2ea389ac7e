ghost use Rattle.std.specs.Prelude.{◌≡◌, ◌++◌, IfOk, OnOk};
ghost use Rattle.file_names.specs.Names.{dataset_name, dataset_name_byte, segment};

use dap_types::{Id, Memory};
use std::alloc::Global;

/// The name of the dataset of a file: the last segment of the file's name, its bytes escaped as in
/// every name, but that a `.` stays (DAP 2.0, names; this project's profile).
pub fn dataset_id(alloc: Global, file_name: &[u8]) -> Result<Id, Memory>
    ensures { IfOk result (λ id. id ≡ dataset_name file_name.now) }
{
    let mut name = Vec::new(alloc);
    for byte in last_segment(file_name) {
        push_name_byte(alloc, &mut name, *byte)?;
    }
    Id::raw(alloc, name.as_slice())
}

fn push_name_byte(alloc: Global, name: &mut Vec<u8>, byte: u8) -> Result<(), Memory>
    ensures { OnOk result (name.new.items ≡ name.old.items ++ dataset_name_byte byte) }
{
    if byte == b'.' {
        name.push(b'.')?;
        return Ok(());
    }
    let escaped = Id::of_file(alloc, &[byte])?;
    name.extend_from_slice(escaped.bytes())?;
    Ok(())
}

/// What stands behind the last `/` of a file's name, or the whole name.
pub fn last_segment(file_name: &[u8]) -> &[u8]
    ensures { result.now ≡ segment file_name.now }
{
    let mut start = file_name.len();
    while start > 0 && file_name[start - 1] != b'/' {
        start -= 1;
    }
    &file_name[start..]
}
