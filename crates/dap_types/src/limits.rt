//! The limits of this project, each in one place. Contracts speak of them by the names of `specs/Limits`.

/// The members of a dataset.
pub const MOST_MEMBERS: u64 = 1_000_000;

/// How deep a member stands, where a top member has depth 1.
pub const MOST_DEPTH: usize = 16;

/// The dimensions of an array.
pub const MOST_DIMENSIONS: usize = 32;

/// The size of a dimension, and the elements of an array that is sent.
pub const MOST_ELEMENTS: u64 = 2_147_483_647;

/// The items of a projection, the clauses of a selection, and the values of a clause.
pub const MOST_ITEMS: u32 = 1_024;

/// The bytes of a DDS or a DAS.
pub const MOST_TEXT: usize = 16_777_216;

/// The bytes of an Error object.
pub const MOST_ERROR: usize = 65_536;

/// A body has fewer bytes.
pub const BODY_LIMIT: u64 = 1 << 40;

/// The bytes that are read or written at a time.
pub const MOST_PIECE: usize = 65_536;

/// The bytes of a table's file.
pub const MOST_TABLE: usize = 67_108_864;

/// The columns of a table.
pub const MOST_COLUMNS: u32 = 1_024;

/// The bytes of a netCDF file's header.
pub const MOST_HEADER: usize = 1_048_576;

/// The bytes of a name in a netCDF file.
pub const MOST_NAME: u64 = 256;

/// The bytes of a netCDF file's variable, and of one of its records.
pub const MOST_VARIABLE: u64 = 1 << 62;

/// The files that are joined.
pub const MOST_LINES: usize = 64;

/// The bytes of a saved data response that is served.
pub const MOST_SAVED: usize = 67_108_864;

/// The bytes of a data response that is written as a netCDF file.
pub const MOST_WRITTEN: usize = 16_777_216;

/// The records of a generated file.
pub const MOST_RECORDS: u64 = 4_096;

/// The workers that fill a data response.
pub const MOST_WORKERS: u64 = 64;

/// The constraints that are fetched one after the other.
pub const MOST_CONSTRAINTS: usize = 16;

/// The links that are served before the program ends.
pub const MOST_LINKS: u64 = 1_000_000_000;

/// The bytes of a host's name (RFC 1035, section 2.3.4).
pub const MOST_HOST: usize = 255;

/// The greatest port (RFC 9293, section 3.1).
pub const MOST_PORT: u64 = 65_535;

/// The requests of a connection.
pub const MOST_REQUESTS: u32 = 1_000;

/// The bytes of a request's head.
pub const MOST_REQUEST_HEAD: usize = 16_384;

/// The bytes of a request's target.
pub const MOST_TARGET: usize = 16_384;

/// The bytes of the heads of a reply, interim ones with them.
pub const MOST_REPLY_HEADS: usize = 65_536;

/// The bytes of all trailers of a reply in chunks.
pub const MOST_TRAILERS: u32 = 16_384;

/// The bytes of a body that is relayed.
pub const MOST_BODY: u32 = 67_108_864;

/// The bodies that are kept.
pub const MOST_ROOM: u64 = 1_024;

/// The bytes of a body that is kept.
pub const MOST_KEPT: usize = 1_048_576;
