use dap_outside::{MemSink, MemSource};
use dap_types::{Bytes, List};
use netcdf_writer::{Stored, save};
use std::alloc::Global;
use std::test::Fail;

/// A text, the line behind it, and values.
pub fn body(alloc: Global, text: &[u8], values: &[u8]) -> Result<Vec<u8>, Fail> {
    let mut body = Vec::from_slice(alloc, text)?;
    body.extend_from_slice(b"Data:\n")?;
    body.extend_from_slice(values)?;
    Ok(body)
}

/// Words as bytes.
pub fn words(alloc: Global, words: &[u32]) -> Result<Vec<u8>, Fail> {
    let mut bytes = Vec::new(alloc);
    for word in words {
        bytes.extend_from_slice(&word.to_be_bytes())?;
    }
    Ok(bytes)
}

/// A body that is saved, and what was put.
pub fn saved(alloc: Global, body: &[u8]) -> Result<(Stored, MemSink), Fail> {
    let mut source = MemSource::new(Bytes::new(alloc, body)?, 65536, List::new(alloc));
    let mut out = MemSink::new(alloc, 4096, 65536, List::new(alloc))?;
    let stored = save(alloc, &mut source, &mut out);
    Ok((stored, out))
}

/// Whether a body is saved as this file.
pub fn becomes(alloc: Global, body: &[u8], file: &[u8]) -> Result<bool, Fail> {
    let (stored, out) = saved(alloc, body)?;
    match stored {
        Stored::Written { bytes } => Ok(bytes == file.len() as u64 && out.bytes() == file),
        _ => Ok(false),
    }
}
