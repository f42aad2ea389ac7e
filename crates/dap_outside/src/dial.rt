ghost use Rattle.std.specs.Prelude.{◌≡◌, ◌<◌, ◌++◌, ◌∷◌, [], ℕ, List, Option, Some, IfOk, OnOk, OnErr, false};
ghost use Rattle.std.specs.Option.{option_map};
ghost use Rattle.dap_outside.specs.Causes.{HasCause};

use crate::{Failed, Link};

/// A place from which links go out.
pub trait Dial {
    type Wire: Link;

    /// The links that came back, in order, each behind the host and the port that it went to, where it
    /// tells them.
    ghost back: { Self → Option (List ((List ℕ × ℕ) × Self.Wire)) };

    /// The host and the port of the last link that went out.
    ghost last: { Self → List ℕ × ℕ };

    /// For how many links that come back there is room.
    ghost spare: { Self → ℕ };

    /// How often connecting has failed, up to 2^64-1.
    ghost faults: { Self → ℕ };

    /// Gives a link to this host and port, which is as it was made. Fails only where the count of
    /// faults rose.
    fn connect(&mut self, host: &str, port: u16) -> Result<Self::Wire, Failed>
        ensures last { OnOk result (last self.new ≡ (host.now, port)) }
        ensures err { OnErr result (last self.new ≡ last self.old) }
        ensures takes { IfOk result (λ wire. Self.Wire.take_faults wire ≡ 0) }
        ensures puts { IfOk result (λ wire. Self.Wire.put_faults wire ≡ 0) }
        ensures going { IfOk result (λ wire. Self.Wire.ended wire ≡ false) }
        ensures all_left { IfOk result (λ wire. Self.Wire.left wire ≡ Self.Wire.whole wire) }
        ensures none_written { IfOk result (λ wire. Self.Wire.written wire ≡ option_map (λ _. []) (Self.Wire.written wire)) }
        ensures spare { OnOk result (0 < spare self.new) }
        ensures back { back self.new ≡ back self.old }
        ensures cause { HasCause (faults self.old) (faults self.new) result };

    /// Takes a link back.
    fn done(&mut self, link: Self::Wire)
        requires { 0 < spare self.old }
        ensures back { back self.new ≡ option_map (λ links. links ++ (last self.old, link) ∷ []) (back self.old) }
        ensures last { last self.new ≡ last self.old }
        ensures faults { faults self.new ≡ faults self.old };
}
