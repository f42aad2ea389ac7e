use dap_types::Bytes;
use hyperslab_plan::Plan;

/// A piece of a body.
#[derive(Debug, Drop)]
pub enum Piece {
    /// These bytes.
    Text(Bytes),
    /// The XDR forms of elements of one of the files, which are numbered from 0.
    Elements { member: u32, plan: Plan },
}
