//! The file served, and its reply read.

ghost use Rattle.std.specs.Prelude.{◌≡◌, ◌≤◌, ℕ, IfOk};
ghost use Rattle.soak.specs.Numbers.{numbers};
ghost use Rattle.soak.specs.Reply as replies;

use crate::numbers::{Numbers, elements_of, sum_of};
use crate::reply::soak_reply;
use dap_client::{Outcome, read_reply};
use dap_http::Kind;
use dap_outside::{MemSink, SureSource};
use dap_types::{Bytes, List, Memory, limits};
use std::alloc::Global;
use std::thread::Threads;

/// The bytes that are shown at most, and moved at once.
const ROOM: u32 = 25_165_824;

const PIECE: u32 = limits::MOST_PIECE as u32;

/// Reads the reply to the request for a file of so many records, and says what came. Fails where memory is
/// wanted.
fn read(alloc: Global, reply: Bytes, records: u32) -> Result<Numbers, Memory>
    requires some { 1 ≤ records }
    requires few { records ≤ 4096 }
    ensures { IfOk result (λ n. (start : ℕ) → reply ≡ replies.reply start records → n ≡ numbers start records) }
{
    let mut source = SureSource::new(reply, PIECE);
    let mut out = MemSink::new(alloc, ROOM, PIECE, List::new(alloc))?;
    match read_reply(alloc, &mut source, Kind::Dods, &mut out) {
        Outcome::Complete { bytes } => {
            let shown = out.bytes();
            Ok(Numbers {
                elements: elements_of(records),
                bytes,
                shown: shown.len() as u64,
                sum: sum_of(shown),
            })
        }
        _ => Err(Memory),
    }
}

/// Generates the file of a seed and so many records, 1 to 4,096, serves a part of each variable over a link
/// in memory, reads the reply, and says what came. Fails where memory is wanted.
pub fn soak<R: Threads + Sync>(
    rt: &R,
    alloc: Global,
    start: u64,
    records: u32,
) -> Result<Numbers, Memory>
    requires some { 1 ≤ records }
    requires few { records ≤ 4096 }
    ensures { IfOk result (λ n. n ≡ numbers start records) }
{
    let reply = soak_reply(rt, alloc, start, records)?;
    read(alloc, reply, records)
}
