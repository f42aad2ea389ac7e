ghost use Rattle.std.specs.Prelude.{◌≡◌, ◌≤◌, IfOk, ◌+◌, ◌-◌, ◌*◌, ◌/◌, ◌%◌, ◌^◌, sum};

use dap_types::{Bytes, Memory};
use std::alloc::Global;

/// What is said of the generated file.
#[derive(Clone, Copy, Debug, PartialEq, Eq)]
pub struct Numbers {
    /// The elements that the constraint leaves.
    pub elements: u64,
    /// The bytes of the data response.
    pub bytes: u64,
    /// The bytes of what is shown of it.
    pub shown: u64,
    /// Their sum, modulo 2^32.
    pub sum: u32,
}

impl Numbers {
    ghost use Rattle.soak.specs.Numbers.{lines_of};

    /// A line for each. Fails where memory is wanted.
    pub fn lines(self, alloc: Global) -> Result<Bytes, Memory>
        ensures { IfOk result (λ b. b ≡ lines_of self) }
    {
        let mut elements = itoa::Buffer::new();
        let mut bytes = itoa::Buffer::new();
        let mut shown = itoa::Buffer::new();
        let mut sum = itoa::Buffer::new();
        let mut text = Vec::new(alloc);
        text.extend_from_slice(b"elements ")?;
        text.extend_from_slice(elements.format(self.elements).as_bytes())?;
        text.extend_from_slice(b"\nbytes ")?;
        text.extend_from_slice(bytes.format(self.bytes).as_bytes())?;
        text.extend_from_slice(b"\nshown ")?;
        text.extend_from_slice(shown.format(self.shown).as_bytes())?;
        text.extend_from_slice(b"\nsum ")?;
        text.extend_from_slice(sum.format(self.sum).as_bytes())?;
        text.extend_from_slice(b"\n")?;
        Ok(Bytes::from_vec(text))
    }
}

/// The elements that the constraint leaves of a file of so many records: 11 elements of 32 rows of every other
/// one, and 32 elements of one row of each.
pub fn elements_of(records: u32) -> u64
    requires some { 1 ≤ records }
    requires few { records ≤ 4096 }
    ensures { result ≡ 352 * ((records - 1) / 2 + 1) + 32 * records }
{
    352 * u64::from((records - 1) / 2 + 1) + 32 * u64::from(records)
}

/// The sum of some bytes, modulo 2^32.
#[tactic(auto, using(crate::proofs::Sums::next_total))]
pub fn sum_of(bytes: &[u8]) -> u32
    ensures { result ≡ sum bytes.now % 2 ^ 32 }
{
    let mut total: u32 = 0;
    for byte in bytes {
        total = total.wrapping_add(u32::from(*byte));
    }
    total
}
