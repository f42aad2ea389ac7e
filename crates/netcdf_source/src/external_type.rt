ghost use Rattle.std.specs.Prelude.{◌≡◌};
ghost use Rattle.netcdf_source.specs.Mapping.{is_long};
ghost use Rattle.netcdf_source.specs.Types.{size_of, type_numbered, type_of};
ghost use Rattle.netcdf_source.specs.inner.Shapes.{type_number};

use crate::version::Version;

/// The type of the values of a variable or of an attribute (netCDF classic format, `nc_type`).
#[derive(Clone, Copy, Debug, PartialEq, Eq)]
pub enum ExternalType {
    /// 8 bits: `nc_type` 1.
    Byte,
    /// A byte of a text: `nc_type` 2.
    Char,
    /// 16 bits in two's complement: `nc_type` 3.
    Short,
    /// 32 bits in two's complement: `nc_type` 4.
    Int,
    /// IEEE 754 single: `nc_type` 5.
    Float,
    /// IEEE 754 double: `nc_type` 6.
    Double,
    /// 8 bits without a sign: `nc_type` 7, in version 5 as all that follow.
    UByte,
    /// 16 bits without a sign: `nc_type` 8.
    UShort,
    /// 32 bits without a sign: `nc_type` 9.
    UInt,
    /// 64 bits in two's complement: `nc_type` 10.
    Int64,
    /// 64 bits without a sign: `nc_type` 11.
    UInt64,
}

impl ExternalType {
    /// The type of that number, 1 to 11.
    fn numbered(number: u32) -> Option<ExternalType>
        ensures { result ≡ type_numbered number }
    {
        match number {
            1 => Some(ExternalType::Byte),
            2 => Some(ExternalType::Char),
            3 => Some(ExternalType::Short),
            4 => Some(ExternalType::Int),
            5 => Some(ExternalType::Float),
            6 => Some(ExternalType::Double),
            7 => Some(ExternalType::UByte),
            8 => Some(ExternalType::UShort),
            9 => Some(ExternalType::UInt),
            10 => Some(ExternalType::Int64),
            11 => Some(ExternalType::UInt64),
            _ => None,
        }
    }

    /// The type of that number in a header of that version: 1 to 6, and in version 5 up to 11.
    pub fn of_number(version: Version, number: u32) -> Option<ExternalType>
        ensures { result ≡ type_of version number }
    {
        if version.has_more_types() || number <= 6 {
            ExternalType::numbered(number)
        } else {
            None
        }
    }

    /// The number of the type in a header, 1 to 11.
    pub fn number(self) -> u32
        ensures { result ≡ type_number self }
    {
        match self {
            ExternalType::Byte => 1,
            ExternalType::Char => 2,
            ExternalType::Short => 3,
            ExternalType::Int => 4,
            ExternalType::Float => 5,
            ExternalType::Double => 6,
            ExternalType::UByte => 7,
            ExternalType::UShort => 8,
            ExternalType::UInt => 9,
            ExternalType::Int64 => 10,
            ExternalType::UInt64 => 11,
        }
    }

    /// The bytes of one value.
    pub fn size(self) -> u32
        ensures { result ≡ size_of self }
    {
        match self {
            ExternalType::Byte | ExternalType::Char | ExternalType::UByte => 1,
            ExternalType::Short | ExternalType::UShort => 2,
            ExternalType::Int | ExternalType::Float | ExternalType::UInt => 4,
            ExternalType::Double | ExternalType::Int64 | ExternalType::UInt64 => 8,
        }
    }

    /// Whether the values are whole numbers of 64 bits, which DAP 2.0 does not have.
    pub fn is_long(self) -> bool
        ensures { result ≡ is_long self }
    {
        matches!(self, ExternalType::Int64 | ExternalType::UInt64)
    }
}
