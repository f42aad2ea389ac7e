ghost use Rattle.std.specs.Prelude.{◌≡◌, [], IfOk};
ghost use Rattle.dap_http.specs.inner.UnderWay.{body_of, frames_of, gained_of};

use crate::gathered::Gathered;
use dap_types::Memory;
use std::alloc::Global;

/// Frames a body, in chunks or as it is (RFC 9112, section 7.1).
#[derive(Drop)]
pub struct Framer {
    pub(crate) chunked: bool,
    pub(crate) gathered: Gathered,
    ghost same: { gathered.chunked ≡ chunked },
    ghost no_body: { body_of (frames_of gathered.whole.items) gathered.frame.items gathered.from ≡ [] },
    ghost nothing: { gained_of (frames_of gathered.whole.items) gathered.frame.items gathered.sent ≡ [] },
}

impl Framer {
    ghost use Rattle.dap_http.specs.Framings.{front_of};

    /// A framer of a body that is sent in chunks, or as it is. Fails where memory is wanted.
    pub fn new(alloc: Global, chunked: bool) -> Result<Framer, Memory>
        ensures chunked { IfOk result (λ f. f.chunked ≡ chunked) }
        ensures front { IfOk result (λ f. front_of f ≡ []) }
    {
        Framer::behind(alloc, chunked, b"")
    }

    /// A framer of a body that goes out behind these bytes, as a reply's head, and in one piece with them where
    /// it is short. Fails where memory is wanted.
    pub fn behind(alloc: Global, chunked: bool, front: &[u8]) -> Result<Framer, Memory>
        ensures chunked { IfOk result (λ f. f.chunked ≡ chunked) }
        ensures front { IfOk result (λ f. front_of f ≡ front.now) }
    {
        Ok(Framer {
            chunked,
            gathered: Gathered::new(alloc, chunked, front)?,
        })
    }
}
