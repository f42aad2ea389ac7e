ghost use Rattle.std.specs.Prelude.{◌≡◌, ◌<◌, ◌++◌, ◌∷◌, [], ℕ, List, Option, Some, IsSome, IfOk, OnOk, OnErr, false};
ghost use Rattle.std.specs.Option.{option_map};
ghost use Rattle.dap_outside.specs.Causes.{HasCause};

use crate::{Failed, Link};

/// A place where links come in.
pub trait Door {
    type Wire: Link;

    /// The links that came back, in order, where it tells them.
    ghost back: { Self → Option (List Self.Wire) };

    /// For how many links that come back there is room.
    ghost spare: { Self → ℕ };

    /// The port at which it listens.
    ghost listens_at: { Self → Option ℕ };

    /// How often listening and accepting have failed, up to 2^64-1.
    ghost faults: { Self → ℕ };

    /// Listens at a port. Fails only where the count of faults rose.
    fn listen(&mut self, port: u16) -> Result<(), Failed>
        ensures port { OnOk result (listens_at self.new ≡ Some port) }
        ensures err { OnErr result (listens_at self.new ≡ listens_at self.old) }
        ensures back { back self.new ≡ back self.old }
        ensures cause { HasCause (faults self.old) (faults self.new) result };

    /// Gives the next link, which is as it was made. Fails only where the count of faults rose.
    fn accept(&mut self) -> Result<Self::Wire, Failed>
        requires { IsSome (listens_at self.old) }
        ensures takes { IfOk result (λ wire. Self.Wire.take_faults wire ≡ 0) }
        ensures puts { IfOk result (λ wire. Self.Wire.put_faults wire ≡ 0) }
        ensures going { IfOk result (λ wire. Self.Wire.ended wire ≡ false) }
        ensures all_left { IfOk result (λ wire. Self.Wire.left wire ≡ Self.Wire.whole wire) }
        ensures none_written { IfOk result (λ wire. Self.Wire.written wire ≡ option_map (λ _. []) (Self.Wire.written wire)) }
        ensures spare { OnOk result (0 < spare self.new) }
        ensures port { listens_at self.new ≡ listens_at self.old }
        ensures back { back self.new ≡ back self.old }
        ensures cause { HasCause (faults self.old) (faults self.new) result };

    /// Takes a link back.
    fn done(&mut self, link: Self::Wire)
        requires { 0 < spare self.old }
        ensures back { back self.new ≡ option_map (λ links. links ++ link ∷ []) (back self.old) }
        ensures port { listens_at self.new ≡ listens_at self.old }
        ensures faults { faults self.new ≡ faults self.old };
}
