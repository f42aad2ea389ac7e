ghost use Rattle.std.specs.Prelude.{◌≡◌, ◌≤◌, ◌<◌, ◌+◌, ◌-◌, ◌++◌, ◌∷◌, ◌⊎◌, ℕ, [], Some, None, All, length, vec_len, vec_capacity, IfOk, IsSome, OnErr, OnOk};
ghost use Rattle.dap_outside.specs.Calls.{IsOneMore};
ghost use Rattle.dap_outside.specs.Causes.{HasCause};
ghost use Rattle.dap_outside.specs.MemLinks.{IsNew};

use crate::calls::Calls;
use crate::{Door, Failed, MemLink, Sink, Source};
use dap_types::{List, Memory};
use std::alloc::Global;

/// A door in memory, which gives its links in order and tells those that came back. The calls of
/// `listen` and `accept` whose numbers, counted together from 1, are in a list fail, each `accept`
/// where no link is left or no room for its return, and no others.
#[derive(Debug, Drop)]
pub struct MemDoor {
    links: Vec<MemLink>,
    back: Vec<MemLink>,
    room: usize,
    port: Option<u16>,
    calls: Calls,
    ghost fresh: { All IsNew links.items },
    ghost within: { vec_len back ≤ room },
    ghost reserved: { room ≤ vec_capacity back },
}

impl MemDoor {
    ghost use Rattle.dap_outside.specs.MemDoors.{back_of, links_of, spare_of};

    /// A door of these links, which are as they were made, with room for the return of each. The calls
    /// in `fails` fail. Fails where memory is wanted.
    pub fn new(alloc: Global, links: List<MemLink>, fails: List<u64>) -> Result<MemDoor, Memory>
        requires fresh { All IsNew links }
        ensures back { IfOk result (λ d. ⟦<MemDoor as Door>⟧.back d ≡ Some []) }
        ensures port { IfOk result (λ d. ⟦<MemDoor as Door>⟧.listens_at d ≡ None) }
        ensures faults { IfOk result (λ d. ⟦<MemDoor as Door>⟧.faults d ≡ 0) }
        ensures links { IfOk result (λ d. links_of d ≡ links) }
        ensures room { IfOk result (λ d. spare_of d ≡ length links) }
        ensures calls { IfOk result (λ d. (d.calls.made ≡ 0) × (d.calls.fails ≡ fails)) }
    {
        let links = links.into_vec();
        let room = links.len();
        let back = Vec::with_capacity(alloc, room)?;
        Ok(MemDoor {
            links,
            back,
            room,
            port: None,
            calls: Calls::new(fails),
        })
    }

    /// The links that came back, in order.
    pub fn back(&self) -> &[MemLink]
        ensures told { ⟦<MemDoor as Door>⟧.back self.now ≡ Some result.now }
        ensures value { result.now ≡ back_of self.now }
    {
        self.back.as_slice()
    }
}

impl Door for MemDoor {
    ghost use Rattle.std.specs.Prelude.{Some};
    ghost use Rattle.dap_outside.specs.MemDoors.{back_of, links_of, spare_of};

    type Wire = MemLink;

    ghost back = { λ d. Some (back_of d) };

    ghost spare = { λ d. spare_of d };

    ghost listens_at = { λ d. d.port };

    ghost faults = { λ d. d.calls.faults };

    /// Listens at a port. Fails exactly where the call is listed.
    fn listen(&mut self, port: u16) -> Result<(), Failed>
        ensures port { OnOk result (self.new.port ≡ Some port) }
        ensures err { OnErr result (self.new.port ≡ self.old.port) }
        ensures back { back_of self.new ≡ back_of self.old }
        ensures spare { spare_of self.new ≡ spare_of self.old }
        ensures links { links_of self.new ≡ links_of self.old }
        ensures cause { HasCause self.old.calls.faults self.new.calls.faults result }
        ensures calls { IsOneMore self.old.calls self.new.calls ⊥ result }
    {
        self.calls.count(true)?;
        self.port = Some(port);
        Ok(())
    }

    /// Gives the first of the links that are left. Fails exactly where the call is listed, no link is
    /// left, or no room for its return.
    fn accept(&mut self) -> Result<MemLink, Failed>
        requires { IsSome self.old.port }
        ensures fresh { IfOk result IsNew }
        ensures gives { IfOk result (λ l. links_of self.old ≡ l ∷ links_of self.new) }
        ensures err { OnErr result (links_of self.new ≡ links_of self.old) }
        ensures room { OnOk result (0 < spare_of self.new) }
        ensures spare { spare_of self.new ≡ spare_of self.old }
        ensures port { self.new.port ≡ self.old.port }
        ensures back { back_of self.new ≡ back_of self.old }
        ensures cause { HasCause self.old.calls.faults self.new.calls.faults result }
        ensures calls { IsOneMore self.old.calls self.new.calls ((length (links_of self.old) ≡ 0) ⊎ (spare_of self.old ≡ 0)) result }
    {
        let can = !self.links.is_empty() && self.back.len() < self.room;
        self.calls.count(can)?;
        Ok(self.links.remove(0))
    }

    fn done(&mut self, link: MemLink)
        requires { 0 < spare_of self.old }
        ensures back { back_of self.new ≡ back_of self.old ++ link ∷ [] }
        ensures spare { spare_of self.new ≡ spare_of self.old - 1 }
        ensures links { links_of self.new ≡ links_of self.old }
        ensures port { self.new.port ≡ self.old.port }
        ensures calls { self.new.calls ≡ self.old.calls }
    {
        match self.back.push(link) {
            Ok(()) => {}
            Err(_) => unreachable!(),
        }
    }
}
