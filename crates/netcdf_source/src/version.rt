ghost use Rattle.std.specs.Prelude.{◌≡◌, ℕ, ◌^◌, ◌<◌};
ghost use Rattle.netcdf_source.specs.Versions.{number_width, place_width, has_more_types, largest, all_ones, bytes_in};

/// The version of a netCDF classic file: the byte behind `CDF` (netCDF classic format, `magic`).
#[derive(Clone, Copy, Debug, PartialEq, Eq)]
pub enum Version {
    /// 1: the classic format.
    One,
    /// 2: places have 64 bits.
    Two,
    /// 5: places and numbers have 64 bits, and there are unsigned types.
    Five,
}

/// The bytes of a number in a header.
#[derive(Clone, Copy, Debug, PartialEq, Eq)]
pub enum Width {
    Four,
    Eight,
}

impl Version {
    /// The bytes of counts, lengths, ranks, dimension numbers and sizes.
    pub fn number_width(self) -> Width
        ensures { result ≡ number_width self }
    {
        match self {
            Version::One | Version::Two => Width::Four,
            Version::Five => Width::Eight,
        }
    }

    /// The bytes of the place of a variable.
    pub fn place_width(self) -> Width
        ensures { result ≡ place_width self }
    {
        match self {
            Version::One => Width::Four,
            Version::Two | Version::Five => Width::Eight,
        }
    }

    /// Whether the types 7 to 11 are types of this version.
    pub fn has_more_types(self) -> bool
        ensures { result ≡ has_more_types self }
    {
        match self {
            Version::One | Version::Two => false,
            Version::Five => true,
        }
    }
}

impl Width {
    /// The number of bytes.
    pub fn bytes(self) -> usize
        ensures { result ≡ bytes_in self }
    {
        match self {
            Width::Four => 4,
            Width::Eight => 8,
        }
    }

    /// The largest number with a sign.
    pub fn largest(self) -> u64
        ensures { result ≡ largest self }
    {
        match self {
            Width::Four => 2147483647,
            Width::Eight => 9223372036854775807,
        }
    }

    /// The number all bits of which are 1.
    pub fn all_ones(self) -> u64
        ensures { result ≡ all_ones self }
    {
        match self {
            Width::Four => 4294967295,
            Width::Eight => 18446744073709551615,
        }
    }
}
