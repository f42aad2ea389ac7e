ghost use Rattle.std.specs.Prelude.{◌≡◌};
ghost use Rattle.netcdf_writer.specs.declared.stored.Stop.TheVariants.{Memory};

use dap_types::{Bytes, Memory as WantOfMemory};
use xdr_decode::BadField;

/// Why a member of a dataset cannot be stored in a netCDF classic file.
#[derive(Clone, Copy, Debug, PartialEq, Eq)]
pub enum Why {
    /// It is a Structure, a Sequence, or has texts.
    Kind,
    /// One of its dimensions has no name.
    NoName,
    /// A name of it is that of no name of 1 to 256 bytes in a file.
    BadName,
    /// The array or a map of a Grid does not have the name that it has in a file.
    BadGrid,
    /// A map, or a dimension, has the name of another one.
    Clash,
    /// A dimension of size 0 cannot be the record dimension.
    Zero,
}

/// How the saving of a dataset ended.
#[derive(Debug, Drop)]
pub enum Stored {
    /// The file was put; it has so many bytes.
    Written { bytes: u64 },
    /// This member, numbered in preorder from 1, is the first that cannot be stored.
    Unsavable { member: u32, why: Why },
    /// The body has more than 16,777,216 bytes.
    BodyTooLarge,
    /// The header of the file would have more than 1,048,576 bytes.
    HeaderTooLong,
    /// The body is an Error object (DAP 2.0, Error objects) of this code and message.
    ServerError { code: i32, message: Bytes },
    /// What is wrong with the body, and where.
    BadReply(BadField),
    /// The source failed.
    ReadFault,
    /// The sink failed. A front of the file was put.
    WriteFault,
    /// The link could not be had.
    LinkFault,
    /// No memory was left. Nothing was put to the sink.
    Memory,
}

/// Why a dataset is not stored.
#[derive(Debug, Drop)]
pub enum Stop {
    Unsavable { member: u32, why: Why },
    Memory,
}

impl From<WantOfMemory> for Stop {
    ghost from_gives = { λ _ e. e ≡ Memory };

    fn from(_: WantOfMemory) -> Self {
        Stop::Memory
    }
}
