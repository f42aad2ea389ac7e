ghost use Rattle.std.specs.Prelude.{◌≡◌};
ghost use Rattle.reply_faults.specs.Bads.{bad_name};

/// What is wrong with a reply or a body: a kind that is this project's for each rule of DAP 2.0,
/// RFC 4506 and RFC 9112 that the client looks at.
#[derive(Clone, Copy, Debug, PartialEq, Eq)]
pub enum Bad {
    /// The head of the reply is none (RFC 9112).
    BadHead,
    /// The heads of the reply are too long.
    HeadTooLong,
    /// The body is coded otherwise than in chunks.
    Coded,
    /// A line or an end of a chunk (RFC 9112, chunked transfer coding).
    BadChunk,
    /// A token of the DDS.
    BadDds,
    /// The line `Data:` behind the DDS.
    BadDataLine,
    /// A token of the DAS.
    BadDas,
    /// A token of the Error object.
    BadError,
    /// The count of an array, or the length of a string above 2^31-1.
    BadCount,
    /// A word that is no number of its type.
    BadWord,
    /// A padding that is not all zero (RFC 4506).
    BadPadding,
    /// A mark that is neither that of a row nor that of the end (DAP 2.0, Sequence).
    WrongMark,
    /// The body ends before its last field.
    Cut,
    /// A byte stands behind the last field.
    Trailing,
    /// The body has 2^40 bytes or more.
    TooLong,
}

impl Bad {
    /// The kind's own name, as the client prints it.
    pub fn name(self) -> &'static str
        ensures { result.now ≡ bad_name self }
    {
        match self {
            Bad::BadHead => "BadHead",
            Bad::HeadTooLong => "HeadTooLong",
            Bad::Coded => "Coded",
            Bad::BadChunk => "BadChunk",
            Bad::BadDds => "BadDds",
            Bad::BadDataLine => "BadDataLine",
            Bad::BadDas => "BadDas",
            Bad::BadError => "BadError",
            Bad::BadCount => "BadCount",
            Bad::BadWord => "BadWord",
            Bad::BadPadding => "BadPadding",
            Bad::WrongMark => "WrongMark",
            Bad::Cut => "Cut",
            Bad::Trailing => "Trailing",
            Bad::TooLong => "TooLong",
        }
    }
}

/// The first thing that is wrong.
#[derive(Clone, Copy, Debug, PartialEq, Eq)]
pub struct BadField {
    pub kind: Bad,
    /// The number of bytes of the body before it; for `Cut` and `TooLong`, of those that came.
    pub place: u64,
}
