//! What every source and every sink keeps, as the contract of a function that does nothing.
ghost use Rattle.std.specs.Io.KnownBytes.{Appends, Consumes};
ghost use Rattle.dap_outside.specs.Laws.{TellsOn};
ghost use Rattle.dap_outside.specs.Streams.{AppendsFront, AppendsSome, ConsumesFront};

/// A source or a sink that tells its bytes goes on telling them, whatever a call took, appended or
/// failed to.
pub fn tells_on()
    ensures puts { TellsOn Appends }
    ensures puts_front { TellsOn AppendsFront }
    ensures puts_some { TellsOn AppendsSome }
    ensures takes { TellsOn Consumes }
    ensures takes_front { TellsOn ConsumesFront }
{}
