ghost use Rattle.std.specs.Prelude.{◌≡◌};

use crate::{Sink, Source};

/// Both ends of a connection. What stands beside its reading side is its writing side, and the other
/// way round.
pub trait Link: Source + Sink {
    ghost keeps_written: { (a b : Self) → Self.beside_reading a ≡ Self.beside_reading b → Self.written a ≡ Self.written b };

    ghost keeps_put_faults: { (a b : Self) → Self.beside_reading a ≡ Self.beside_reading b → Self.put_faults a ≡ Self.put_faults b };

    ghost keeps_whole: { (a b : Self) → Self.beside_writing a ≡ Self.beside_writing b → Self.whole a ≡ Self.whole b };

    ghost keeps_left: { (a b : Self) → Self.beside_writing a ≡ Self.beside_writing b → Self.left a ≡ Self.left b };

    ghost keeps_ended: { (a b : Self) → Self.beside_writing a ≡ Self.beside_writing b → Self.ended a ≡ Self.ended b };

    ghost keeps_take_faults: { (a b : Self) → Self.beside_writing a ≡ Self.beside_writing b → Self.take_faults a ≡ Self.take_faults b };
}
