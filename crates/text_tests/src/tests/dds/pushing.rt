use crate::tests::expecting::expect;
use dap_types::Memory;
use dds_text::{DdsReader, DdsStep};
use std::process::Abort;
use std::test::Fail;

/// What is said behind a piece.
pub fn push(reader: &mut DdsReader, piece: &[u8]) -> Result<DdsStep, Memory> {
    reader.push(piece)
}

/// Behind a piece this is said.
pub fn expect_step<R: Abort>(
    rt: &R,
    reader: &mut DdsReader,
    piece: &[u8],
    expected: DdsStep,
) -> Result<(), Fail> {
    expect(rt, push(reader, piece)?, expected);
    Ok(())
}
