//! The bodies that a gateway keeps, by the requests that they answer.

ghost use Rattle.std.specs.Prelude.{◌≡◌, ◌≤◌, ◌-◌, ◌∷◌, [], None, Some, IfOk, MatchOption, OnErr, OnOk, is_some, take};
ghost use Rattle.std.specs.Map.{lookup};
ghost use Rattle.std.specs.Str.{bytes_eq};
ghost use Rattle.dap_types.specs.Limits.{most_room};
ghost use Rattle.lru.specs.LruCache.{promoted};
ghost use Rattle.dap_gateway.specs.Pairs.{pairs, room_of};

use dap_types::{Bytes, Memory};
use lru::LruCache;
use std::alloc::Global;
use std::num::NonZeroUsize;

/// Pairs of the bytes of a request and the body of its reply, the most recently used first, up to a number
/// of them that is stated when it is made.
#[derive(Drop)]
pub struct Cache {
    kept: LruCache<Vec<u8>, Bytes>,
}

impl Cache {
    /// An empty cache with room for so many pairs, 1 to 1,024. Fails where memory is wanted.
    pub fn new(alloc: Global, room: u32) -> Result<Cache, Memory>
        requires some { 1 ≤ room }
        requires few { room ≤ most_room }
        ensures empty { IfOk result (λ c. pairs c ≡ []) }
        ensures room { IfOk result (λ c. room_of c ≡ room) }
    {
        match NonZeroUsize::new(room as usize) {
            Some(cap) => Ok(Cache {
                kept: LruCache::new(alloc, cap)?,
            }),
            None => unreachable!(),
        }
    }

    /// The body that is kept for a request.
    pub(crate) fn body(&self, key: &[u8]) -> Option<&[u8]>
        ensures { MatchOption result (lookup (bytes_eq key.now) (pairs self.now) ≡ None) (λ body. lookup (bytes_eq key.now) (pairs self.now) ≡ Some body.now) }
    {
        match self.kept.peek(key) {
            Some(body) => Some(body.bytes()),
            None => None,
        }
    }

    /// Whether a body is kept for a request.
    pub(crate) fn holds(&self, key: &[u8]) -> bool
        ensures { result ≡ is_some (lookup (bytes_eq key.now) (pairs self.now)) }
    {
        self.kept.contains(key)
    }

    /// The pair of a request becomes the most recently used.
    pub(crate) fn promote(&mut self, key: &[u8])
        ensures pairs { pairs self.new ≡ promoted (bytes_eq key.now) (pairs self.old) }
        ensures room { room_of self.new ≡ room_of self.old }
    {
        self.kept.promote(key);
    }

    /// Puts a pair in front for a request that has none; a full cache drops its last pair.
    pub(crate) fn keep(&mut self, alloc: Global, key: &[u8], body: Bytes) -> Result<(), Memory>
        requires { lookup (bytes_eq key.now) (pairs self.old) ≡ None }
        ensures ok { OnOk result (pairs self.new ≡ (key.now, body) ∷ take (room_of self.old - 1) (pairs self.old)) }
        ensures err { OnErr result (pairs self.new ≡ pairs self.old) }
        ensures room { room_of self.new ≡ room_of self.old }
    {
        let key = Vec::from_slice(alloc, key)?;
        self.kept.put(key, body)?;
        Ok(())
    }
}
