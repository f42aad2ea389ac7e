//! A list of files with names at their limit, which is answered as one dataset.

use super::expect_answer;
use super::samples::{R, alone, file};
use super::texts::Row;
use dap_outside::MemFile;
use dap_types::{List, Memory};
use std::alloc::Global;
use std::process::Abort;
use std::test::Fail;
use std::thread::Threads;

/// Each second record, from the second on.
pub const EACH_SECOND: Row = (
    "j.join.dods?s[1:2:5]",
    b"Dataset {\n    Int16 s[t = 3];\n} j.join;\nData:\n",
    &[3, 3, 2, 4, 6],
);

/// A name of 255 bytes.
fn long_name(alloc: Global) -> Result<String, Memory> {
    let mut name = String::new(alloc);
    for _ in 0..252u32 {
        name.push('n')?;
    }
    name.push_str(".nc")?;
    Ok(name)
}

/// A list of 64 lines of that name.
fn list_of(alloc: Global, name: &str) -> Result<Vec<u8>, Memory> {
    let mut list = Vec::new(alloc);
    for _ in 0..64u32 {
        list.extend_from_slice(name.as_bytes())?;
        list.extend_from_slice(b"\r\n")?;
    }
    Ok(list)
}

/// A file of that name, and that list.
fn long_names(alloc: Global) -> Result<List<MemFile>, Memory> {
    let name = long_name(alloc)?;
    let list = list_of(alloc, name.as_str())?;
    let mut files = alone(alloc, file(alloc, name.as_str(), R, b"\0\x01\0\x02\0\x03")?)?;
    files.push(file(alloc, "long.join", &[], &list)?)?;
    Ok(files)
}

/// 64 lines of a name of 255 bytes, ended by CR LF: no list that is joined is longer.
#[test]
fn as_long_names_as_a_list_may_have(rt: HostRuntime) -> Result<(), Fail> {
    let words = ["answer", "long.join.dods?s[0:191:191]", "2"];
    let text =
        b"Dataset {\n    Int16 s[t = 2];\n} long.join;\nData:\n\0\0\0\x02\0\0\0\x02\0\0\0\x01\0\0\0\x03";
    expect_answer(&rt, long_names(rt.alloc())?, &words, text)
}
