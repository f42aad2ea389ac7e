//! What goes out of the large files and tables, by its bytes and their sum.

use crate::building::sum_of;
use crate::tallies::{Tally, byte_at};
use std::process::Abort;

/// What a sink gets: so many bytes, with that sum.
#[derive(Clone, Copy)]
pub struct Sent {
    pub bytes: u64,
    pub sum: u64,
}

impl Sent {
    /// A DDS and the line `Data:`.
    pub fn head(dds: &[u8]) -> Sent {
        Sent {
            bytes: (dds.len() as u64).wrapping_add(6),
            sum: sum_of(dds).wrapping_add(sum_of(b"Data:\n")),
        }
    }

    /// So many bytes more, with that sum.
    pub fn add(&mut self, bytes: u64, sum: u64) {
        self.bytes = self.bytes.wrapping_add(bytes);
        self.sum = self.sum.wrapping_add(sum);
    }
}

/// The sum of the bytes of a variable of a wide file that stands there, and of its counts.
fn variable_sum(begin: u64) -> u64 {
    let mut sum = 4u64;
    for k in 0..8u64 {
        sum = sum.wrapping_add(u64::from(byte_at(begin.wrapping_add(k))));
    }
    sum
}

/// The body of the first variables of a wide file, which stand from this place on.
pub fn variables_sent(dds: &[u8], variables: u32, from: u32) -> Sent {
    let mut sent = Sent::head(dds);
    let mut begin = u64::from(from);
    for _ in 0..variables {
        sent.add(16, variable_sum(begin));
        begin = begin.wrapping_add(8);
    }
    sent
}

/// The sink got them.
pub fn expect_sent<R: Abort>(rt: &R, tally: &Tally, sent: &Sent) {
    assert_eq!(rt; (tally.bytes, tally.sum), (sent.bytes, sent.sum));
}

/// The body of the first rows of a tall table.
pub fn tall_rows(dds: &[u8], rows: u32) -> Sent {
    let mut sent = Sent::head(dds);
    for number in 0..rows {
        sent.add(8, 0x5a);
        sent.add(0, sum_of(&number.to_be_bytes()));
    }
    sent.add(4, 0xa5);
    sent
}
