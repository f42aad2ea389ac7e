ghost use Rattle.std.specs.Prelude.{◌≡◌, ◌++◌, [], ℕ, List, Option, Some, IsTrue, OnOk, OnErr};
ghost use Rattle.std.specs.Io.KnownBytes.{Appends};
ghost use Rattle.dap_outside.specs.Causes.{HasCause};
ghost use Rattle.dap_http.specs.Framings.{front_of, has_gained, has_grown, start_of, told_where};
ghost use Rattle.dap_http.specs.inner.Putting.{body_in, front_in, gained_by};

use crate::Framer;
use crate::gathered::Gathered;
use dap_outside::{Failed, Sink};
use http_server::Log;

/// A sink of the bytes of a body, which puts them framed to another, behind what the framer puts before them. Its
/// last parameter is always `Gathered`; it lets contracts speak of the other sink behind `end`. One that is let
/// go without `end` or `break_off` leaves the body open, and may have put nothing.
#[derive(Drop)]
pub struct Framing<'a, O: Sink, F> {
    out: &'a mut O,
    began: Log<O, u8>,
    gathered: F,
    ghost grows: { IsTrue (has_grown (start_of O.written began.items) (O.written out.now)) },
}

impl Framer {
    /// A sink of body bytes over another sink, which gets them framed.
    pub fn over<'a, O: Sink>(self, out: &'a mut O) -> Framing<'a, O, Gathered>
        ensures written { ⟦<Framing<'a, O, Gathered> as Sink>⟧.written result ≡ Some [] }
        ensures out { result.out.now ≡ out.old }
        ensures same { result.out.ghost_name ≡ out.entry.ghost_name }
        ensures began { start_of O.written result.began.items ≡ O.written out.old }
        ensures chunked { result.gathered.chunked ≡ self.chunked }
        ensures front { front_in result.gathered ≡ front_of self }
    {
        let began = Log::new().and(&*out, &0);
        Framing {
            out,
            began,
            gathered: self.gathered,
        }
    }
}

impl<'a, O: Sink> Framing<'a, O, Gathered> {
    ghost use Rattle.dap_http.specs.Frames.{IsFront, IsProperFront, framed};
    ghost use Rattle.dap_http.specs.Framings.{IsUnfinished};

    /// What the other sink has gained is a front of what each body becomes that begins with the bytes
    /// that were put, behind what goes out before it, also behind a `put` that failed. Where more of the body is to
    /// come, or a last chunk, something of that is missing. It does nothing.
    pub fn law(&self)
        ensures part { (body : List ℕ) → ⟦<Framing<'a, O, Gathered> as Sink>⟧.written self.now ≡ Some body →
            (part : List ℕ) × Appends (start_of O.written self.now.began.items) (O.written self.now.out.now) part
            × ((more : List ℕ) → IsFront part (front_in self.now.gathered ++ framed self.now.gathered.chunked (body ++ more))) }
        ensures proper { (body more : List ℕ) → ⟦<Framing<'a, O, Gathered> as Sink>⟧.written self.now ≡ Some body → IsUnfinished self.now.gathered.chunked more →
            (part : List ℕ) × Appends (start_of O.written self.now.began.items) (O.written self.now.out.now) part
            × IsProperFront part (front_in self.now.gathered ++ framed self.now.gathered.chunked (body ++ more)) }
    {}

    /// Lets the other sink go without an end. It has gained a front of what each body becomes that begins
    /// with the bytes that were put, behind what goes out before it. Where more of the body is to come, or a last
    /// chunk, something of that is missing.
    pub fn stop(self)
        ensures same { self.exit.0.now ≡ self.entry.out.now }
        ensures part { (body : List ℕ) → ⟦<Framing<'a, O, Gathered> as Sink>⟧.written self.entry ≡ Some body →
            (part : List ℕ) × Appends (start_of O.written self.entry.began.items) (O.written self.exit.0.now) part
            × ((more : List ℕ) → IsFront part (front_in self.entry.gathered ++ framed self.entry.gathered.chunked (body ++ more))) }
        ensures proper { (body more : List ℕ) → ⟦<Framing<'a, O, Gathered> as Sink>⟧.written self.entry ≡ Some body → IsUnfinished self.entry.gathered.chunked more →
            (part : List ℕ) × Appends (start_of O.written self.entry.began.items) (O.written self.exit.0.now) part
            × IsProperFront part (front_in self.entry.gathered ++ framed self.entry.gathered.chunked (body ++ more)) }
        ensures grown { (x : List ℕ) × Appends (start_of O.written self.entry.began.items) (O.written self.exit.0.now) x }
    {}

    /// Breaks the body off: puts what goes out before it, where that was not put, and of the body what may go out
    /// without its rest, which are the chunks that are whole, or all bytes of a body that is sent as it is. Behind
    /// an error a front of both was put, and something is missing.
    pub fn break_off(self) -> Result<(), Failed>
        ensures part { OnOk result ((body : List ℕ) → ⟦<Framing<'a, O, Gathered> as Sink>⟧.written self.entry ≡ Some body →
            (part : List ℕ) × Appends (start_of O.written self.entry.began.items) (O.written self.exit.0.now) (front_in self.entry.gathered ++ part)
            × ((more : List ℕ) → IsFront part (framed self.entry.gathered.chunked (body ++ more)))) }
        ensures proper { OnOk result ((body more : List ℕ) → ⟦<Framing<'a, O, Gathered> as Sink>⟧.written self.entry ≡ Some body → IsUnfinished self.entry.gathered.chunked more →
            (part : List ℕ) × Appends (start_of O.written self.entry.began.items) (O.written self.exit.0.now) (front_in self.entry.gathered ++ part)
            × IsProperFront part (framed self.entry.gathered.chunked (body ++ more))) }
        ensures err { OnErr result ((body more : List ℕ) → ⟦<Framing<'a, O, Gathered> as Sink>⟧.written self.entry ≡ Some body →
            (part : List ℕ) × Appends (start_of O.written self.entry.began.items) (O.written self.exit.0.now) part
            × IsProperFront part (front_in self.entry.gathered ++ framed self.entry.gathered.chunked (body ++ more))) }
        ensures grown { (x : List ℕ) × Appends (start_of O.written self.entry.began.items) (O.written self.exit.0.now) x }
        ensures cause { HasCause (O.put_faults self.entry.out.now) (O.put_faults self.exit.0.now) result }
        ensures beside { O.beside_writing self.exit.0.now ≡ O.beside_writing self.entry.out.now }
    {
        let Framing {
            out,
            began: _,
            gathered,
        } = self;
        gathered.break_off(out)
    }

    /// Ends the body. Behind an `Ok` the other sink has gained the framed body behind what goes out before it, and
    /// else a front of both, of which something is missing.
    pub fn end(self) -> Result<(), Failed>
        ensures ok { OnOk result ((body : List ℕ) → ⟦<Framing<'a, O, Gathered> as Sink>⟧.written self.entry ≡ Some body →
            Appends (start_of O.written self.entry.began.items) (O.written self.exit.0.now) (front_in self.entry.gathered ++ framed self.entry.gathered.chunked body)) }
        ensures err { OnErr result ((body : List ℕ) → ⟦<Framing<'a, O, Gathered> as Sink>⟧.written self.entry ≡ Some body →
            (part : List ℕ) × Appends (start_of O.written self.entry.began.items) (O.written self.exit.0.now) part
            × IsProperFront part (front_in self.entry.gathered ++ framed self.entry.gathered.chunked body)) }
        ensures grown { (x : List ℕ) × Appends (start_of O.written self.entry.began.items) (O.written self.exit.0.now) x }
        ensures cause { HasCause (O.put_faults self.entry.out.now) (O.put_faults self.exit.0.now) result }
        ensures beside { O.beside_writing self.exit.0.now ≡ O.beside_writing self.entry.out.now }
    {
        let Framing {
            out,
            began: _,
            gathered,
        } = self;
        gathered.end(out)
    }
}

impl<'a, O: Sink> Sink for Framing<'a, O, Gathered> {
    ghost use Rattle.std.specs.Prelude.{Bool};
    ghost use Rattle.std.specs.Borrow.{GName};

    ghost Rest = { O.Rest × GName × Option (List ℕ) × Bool × List ℕ };

    ghost written = { λ s. told_where (has_gained (start_of O.written s.began.items) (O.written s.out.now) (gained_by s.gathered)) (body_in s.gathered) };

    ghost put_faults = { λ s. O.put_faults s.out.now };

    ghost beside_writing = { λ s. (O.beside_writing s.out.now, s.out.ghost_name, start_of O.written s.began.items, s.gathered.chunked, front_in s.gathered) };

    fn put(&mut self, bytes: &[u8]) -> Result<usize, Failed> {
        self.gathered.accept(self.out, bytes)
    }
}
