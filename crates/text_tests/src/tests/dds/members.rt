use crate::tests::dds::pushing::expect_step;
use dap_types::Memory;
use dds_text::{DdsReader, DdsStep};
use std::alloc::Global;
use std::process::Abort;
use std::test::Fail;
use text_lines::{put, put_number};

fn put_member(text: &mut Vec<u8>, number: u32) -> Result<(), Memory> {
    put(text, b"Byte ")?;
    put_number(text, number)?;
    put(text, b";")
}

/// The front of a text, with so many members.
fn front(alloc: Global, members: u32) -> Result<Vec<u8>, Memory> {
    let mut text = Vec::from_slice(alloc, b"Dataset{")?;
    for number in 0..members {
        put_member(&mut text, number)?;
    }
    Ok(text)
}

/// Behind the first piece of a text this is said.
fn expect_first<R: Abort>(
    rt: &R,
    alloc: Global,
    text: &[u8],
    expected: DdsStep,
) -> Result<(), Fail> {
    let mut reader = DdsReader::new(alloc, 0);
    expect_step(rt, &mut reader, text, expected)
}

/// One member more than a million is bad at its first word.
#[test]
fn a_million_members_are_read(rt: HostRuntime) -> Result<(), Fail> {
    let mut text = front(rt.alloc(), 1_000_000)?;
    let length = text.len();
    put(&mut text, b"Byte b;}d;")?;
    let place = length as u64;
    expect_first(&rt, rt.alloc(), &text, DdsStep::Bad { place })?;
    text.truncate(length);
    put(&mut text, b"}d;")?;
    let used = text.len();
    expect_first(&rt, rt.alloc(), &text, DdsStep::Done { used })
}
