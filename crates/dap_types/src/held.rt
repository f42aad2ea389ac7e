ghost use Rattle.std.specs.Prelude.{◌≡◌, IfOk};
ghost use Rattle.std.specs.Arc.{arc_value};
ghost use Rattle.dap_types.specs.Held.{IsHeld, held_bytes};

use crate::Memory;
use smallvec::SmallVec;
use std::alloc::Global;
use std::sync::Arc;

/// The most bytes that are kept in place. Most names have no more, and a name takes 24 bytes with it.
const IN_PLACE: usize = 20;

/// The most bytes that are kept in one allocation with the number of their owners. It takes 64 bytes.
const TOGETHER: usize = 32;

/// The bytes of a name: in place, or apart, where all its copies own them.
#[derive(Debug, Drop)]
pub enum Held {
    /// The first so many of these.
    Here(u8, [u8; IN_PLACE]),
    There(Arc<SmallVec<u8, TOGETHER>>),
}

impl Held {
    /// A copy of the bytes apart.
    #[cold]
    fn apart(alloc: Global, bytes: &[u8]) -> Result<Held, Memory>
        ensures held { IfOk result IsHeld }
        ensures bytes { IfOk result (λ h. held_bytes h ≡ bytes.now) }
    {
        let bytes = SmallVec::from_slice(alloc, bytes)?;
        Ok(Held::There(Arc::new(alloc, bytes)?))
    }

    /// A copy of the bytes.
    pub fn new(alloc: Global, bytes: &[u8]) -> Result<Held, Memory>
        ensures held { IfOk result IsHeld }
        ensures bytes { IfOk result (λ h. held_bytes h ≡ bytes.now) }
    {
        let count = bytes.len();
        if count > IN_PLACE {
            return Held::apart(alloc, bytes);
        }
        let mut here = [0u8; IN_PLACE];
        here[..count].copy_from_slice(bytes);
        Ok(Held::Here(count as u8, here))
    }

    /// One more owner of these bytes.
    #[cold]
    fn shared(bytes: &Arc<SmallVec<u8, TOGETHER>>) -> Result<Held, Memory>
        ensures held { IfOk result IsHeld }
        ensures bytes { IfOk result (λ h. held_bytes h ≡ (arc_value bytes.now).items) }
    {
        Ok(Held::There(Arc::try_clone(bytes)?))
    }

    /// The same bytes once more.
    #[inline]
    pub fn try_clone(&self) -> Result<Held, Memory>
        requires { IsHeld self.now }
        ensures held { IfOk result IsHeld }
        ensures bytes { IfOk result (λ h. held_bytes h ≡ held_bytes self.now) }
    {
        match self {
            Held::Here(count, bytes) => Ok(Held::Here(*count, *bytes)),
            Held::There(bytes) => Held::shared(bytes),
        }
    }

    /// The bytes, in order.
    #[inline]
    pub fn bytes(&self) -> &[u8]
        requires { IsHeld self.now }
        ensures { result.now ≡ held_bytes self.now }
    {
        match self {
            Held::Here(count, bytes) => &bytes[..*count as usize],
            Held::There(bytes) => bytes.as_slice(),
        }
    }
}
