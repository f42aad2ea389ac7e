//! The end of a body, made in place behind what was gathered of it.

ghost use Rattle.std.specs.Prelude.{◌≡◌, ◌≤◌, ◌<◌, ◌+◌, ◌-◌, ◌++◌, length, take, drop, false, vec_capacity};
ghost use Rattle.std.specs.Fmt.{digits};
ghost use Rattle.dap_types.specs.Limits.{most_piece};
ghost use Rattle.dap_http.specs.Frames.{chunked, framed};
ghost use Rattle.dap_http.specs.inner.UnderWay.{full_head, head_of};

use crate::intake::keep;
use viable::hex_digit;

/// Ends a body whose last bytes stand behind a place, with room for the head of a chunk before them. What stands
/// before that room goes out with them. Answers where all of it begins.
pub fn ended(in_chunks: bool, frame: &mut Vec<u8>, from: usize) -> usize
    requires behind { length (head_of in_chunks) ≤ from }
    requires headed { from ≤ length frame.old.items }
    requires few { length frame.old.items < from + most_piece }
    requires room { from + 65543 ≤ vec_capacity frame.old }
    requires head { drop (from - length (head_of in_chunks)) frame.old.items ≡ head_of in_chunks ++ drop from frame.old.items }
    ensures inside { result ≤ length frame.new.items }
    ensures ended { drop result frame.new.items ≡ take (from - length (head_of in_chunks)) frame.old.items ++ framed in_chunks (drop from frame.old.items) }
{
    if !in_chunks {
        return 0;
    }
    if frame.len() == from {
        return end_alone(frame, from - 7);
    }
    end_chunk(frame, from - 7)
}

/// Ends a body behind its chunks.
fn end_alone(frame: &mut Vec<u8>, lead: usize) -> usize
    requires headed { lead + 7 ≡ length frame.old.items }
    requires room { lead + 7 ≤ vec_capacity frame.old }
    ensures inside { result ≤ length frame.new.items }
    ensures ended { drop result frame.new.items ≡ take lead frame.old.items ++ chunked (drop (lead + 7) frame.old.items) }
{
    frame.truncate(lead);
    keep(frame, b"0\r\n\r\n");
    0
}

/// Ends a body and its last chunk, whose size is written right before its bytes.
fn end_chunk(frame: &mut Vec<u8>, lead: usize) -> usize
    requires headed { lead + 7 < length frame.old.items }
    requires few { length frame.old.items < lead + 65543 }
    requires room { lead + 65550 ≤ vec_capacity frame.old }
    requires head { drop lead frame.old.items ≡ full_head ++ drop (lead + 7) frame.old.items }
    ensures inside { result ≤ length frame.new.items }
    ensures ended { drop result frame.new.items ≡ take lead frame.old.items ++ chunked (drop (lead + 7) frame.old.items) }
{
    let size = (frame.len() - lead - 7) as u64;
    let at = write_size(frame, lead + 5, size);
    frame.copy_within(0..lead, at - lead);
    keep(frame, b"\r\n0\r\n\r\n");
    at - lead
}

/// Writes a number in lower-case hexadecimal digits without leading zeros, which end before a place. Answers where
/// they begin.
fn write_size(frame: &mut Vec<u8>, end: usize, size: u64) -> usize
    requires room { length (digits 16 false size) ≤ end }
    requires inside { end ≤ length frame.old.items }
    ensures place { result + length (digits 16 false size) ≡ end }
    ensures before { take result frame.new.items ≡ take result frame.old.items }
    ensures behind { drop result frame.new.items ≡ digits 16 false size ++ drop end frame.old.items }
    ensures len { length frame.new.items ≡ length frame.old.items }
    ensures room { vec_capacity frame.new ≡ vec_capacity frame.old }
{
    let at = end - 1;
    frame[at] = hex_digit((size % 16) as u8, false);
    if size < 16 {
        return at;
    }
    write_size(frame, at, size / 16)
}
