/// Why a text is no DAS.
#[derive(Clone, Copy, Debug, PartialEq, Eq)]
pub enum DasRefusal {
    /// Here stands the first whole token with which the text no longer begins a DAS; or no DAS ends
    /// within 16,777,216 bytes, and this is that place.
    Bad { place: u64 },
    /// Here stands the first byte behind the DAS that is no white space.
    Trailing { place: u64 },
    /// The text ends within the DAS.
    Cut,
    /// Memory was wanted.
    Memory,
}
