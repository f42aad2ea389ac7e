ghost use Rattle.std.specs.Prelude.{◌≡◌};

/// What a request asks for, by the suffix of its target (DAP 2.0, URL suffixes).
#[derive(Clone, Copy, Debug, PartialEq, Eq)]
pub enum Kind {
    Dds,
    Das,
    Dods,
    /// The version of the server.
    Ver,
}

impl Kind {
    ghost use Rattle.dap_http.specs.Targets.{suffix_of};
    ghost use Rattle.dap_http.specs.Texts.{description_of, is_chunked};

    /// The suffix of a target that asks for it.
    pub fn suffix(self) -> &'static [u8]
        ensures { result.now ≡ suffix_of self }
    {
        match self {
            Kind::Dds => b".dds",
            Kind::Das => b".das",
            Kind::Dods => b".dods",
            Kind::Ver => b".ver",
        }
    }

    /// What the head of its reply says of its body.
    pub fn description(self) -> &'static [u8]
        ensures { result.now ≡ description_of self }
    {
        match self {
            Kind::Dds => b"dods_dds",
            Kind::Das => b"dods_das",
            Kind::Dods => b"dods_data",
            Kind::Ver => b"dods_version",
        }
    }

    /// Whether its reply to a request of HTTP/1.0 or 1.1, by the minor number, is sent in chunks: data
    /// is, where chunks are known. Data to HTTP/1.0 ends with the connection, and all else has a length.
    pub fn is_chunked(self, minor: u8) -> bool
        ensures { result ≡ is_chunked self minor }
    {
        match self {
            Kind::Dods => minor == 1,
            Kind::Dds | Kind::Das | Kind::Ver => false,
        }
    }
}
