//! Saved responses for the tests, from their bytes and a constraint to what a sink gets.

use constraint_parse::parse;
use dap_outside::MemSink;
use dap_types::{Index, List, Memory};
use grid_projection::resolve;
use saved_source::{SavedBody, SavedBodyRefusal, read_saved};
use std::alloc::Global;
use std::process::Abort;
use std::test::Fail;

/// A text and words behind it.
pub fn response(alloc: Global, text: &[u8], words: &[u32]) -> Result<Vec<u8>, Memory> {
    let mut bytes = Vec::new(alloc);
    bytes.extend_from_slice(text)?;
    for word in words {
        bytes.extend_from_slice(&word.to_be_bytes())?;
    }
    Ok(bytes)
}

/// The body for a constraint of the file `saved.dods`, or why there is none.
pub fn made<R: Abort>(
    rt: &R,
    alloc: Global,
    bytes: &[u8],
    query: &[u8],
) -> Result<Result<SavedBody, SavedBodyRefusal>, Fail> {
    let Ok(saved) = read_saved(alloc, bytes, b"saved.dods") else {
        panic!(rt; "no response");
    };
    let dataset = saved.dataset(alloc)?;
    let index = Index::new(alloc, &dataset)?;
    let Ok(constraint) = parse(alloc, query) else {
        panic!(rt; "no constraint");
    };
    let Ok(marks) = resolve(alloc, &dataset, &index, &constraint) else {
        panic!(rt; "no marks");
    };
    Ok(SavedBody::new(alloc, saved, &dataset, &index, &constraint, &marks))
}

/// The body for a constraint of the file `saved.dods`.
pub fn body_of<R: Abort>(
    rt: &R,
    alloc: Global,
    bytes: &[u8],
    query: &[u8],
) -> Result<SavedBody, Fail> {
    let Ok(body) = made(rt, alloc, bytes, query)? else {
        panic!(rt; "no body");
    };
    Ok(body)
}

/// What goes out of the file `saved.dods` for a constraint.
pub fn served<R: Abort>(
    rt: &R,
    alloc: Global,
    bytes: &[u8],
    query: &[u8],
) -> Result<Vec<u8>, Fail> {
    let mut body = body_of(rt, alloc, bytes, query)?;
    let mut sink = MemSink::new(alloc, 100000, 7, List::new(alloc))?;
    assert!(rt; body.stream(&mut sink).is_ok());
    let mut out = Vec::new(alloc);
    out.extend_from_slice(sink.bytes())?;
    Ok(out)
}

/// The response is served for a constraint as that text and those words.
pub fn expect<R: Abort>(
    rt: &R,
    alloc: Global,
    bytes: &[u8],
    query: &[u8],
    text: &[u8],
    words: &[u32],
) -> Result<(), Fail> {
    let out = served(rt, alloc, bytes, query)?;
    let wanted = response(alloc, text, words)?;
    assert!(rt; out.as_slice() == wanted.as_slice());
    Ok(())
}
