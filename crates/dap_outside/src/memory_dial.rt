ghost use Rattle.std.specs.Prelude.{◌≡◌, ◌≤◌, ◌<◌, ◌+◌, ◌-◌, ◌++◌, ◌∷◌, ◌⊎◌, ℕ, [], Some, All, length, map, take, vec_len, vec_capacity, IfOk, OnErr, OnOk};
ghost use Rattle.std.specs.Option.{option_map};
ghost use Rattle.dap_outside.specs.Calls.{IsOneMore};
ghost use Rattle.dap_outside.specs.Causes.{HasCause};
ghost use Rattle.dap_outside.specs.MemLinks.{IsNew};

use crate::calls::Calls;
use crate::{Dial, Failed, MemLink, Sink, Source};
use dap_types::{List, Memory, limits};
use std::alloc::Global;

/// The bytes of a host.
const HOST: usize = limits::MOST_HOST;

/// Where a link went to: a host of at most 255 bytes, and a port.
#[derive(Clone, Copy)]
pub struct Called {
    host: [u8; HOST],
    len: u8,
    port: u16,
}

/// A dial in memory, which gives its links in order and tells those that came back. The calls of
/// `connect` whose numbers, counted from 1, are in a list fail, each whose host has more than 255
/// bytes, each where no link is left or no room for its return, and no others.
#[derive(Drop)]
pub struct MemDial {
    links: Vec<MemLink>,
    back: Vec<MemLink>,
    called: Vec<Called>,
    last: Called,
    room: usize,
    calls: Calls,
    ghost fresh: { All IsNew links.items },
    ghost within: { vec_len back ≤ room },
    ghost reserved: { room ≤ vec_capacity back },
    ghost reserved_called: { room ≤ vec_capacity called },
    ghost beside: { length called.items ≡ length back.items },
}

impl MemDial {
    ghost use Rattle.dap_outside.specs.MemDials.{back_of, links_of, place_of, spare_of};

    /// A dial of these links, which are as they were made, with room for the return of each and for
    /// its host of 255 bytes. The calls in `fails` fail. Fails where memory is wanted.
    pub fn new(alloc: Global, links: List<MemLink>, fails: List<u64>) -> Result<MemDial, Memory>
        requires fresh { All IsNew links }
        ensures back { IfOk result (λ d. ⟦<MemDial as Dial>⟧.back d ≡ Some []) }
        ensures faults { IfOk result (λ d. ⟦<MemDial as Dial>⟧.faults d ≡ 0) }
        ensures links { IfOk result (λ d. links_of d ≡ links) }
        ensures room { IfOk result (λ d. spare_of d ≡ length links) }
        ensures calls { IfOk result (λ d. (d.calls.made ≡ 0) × (d.calls.fails ≡ fails)) }
    {
        let links = links.into_vec();
        let room = links.len();
        let back = Vec::with_capacity(alloc, room)?;
        let called = Vec::with_capacity(alloc, room)?;
        Ok(MemDial {
            links,
            back,
            called,
            last: Called {
                host: [0; HOST],
                len: 0,
                port: 0,
            },
            room,
            calls: Calls::new(fails),
        })
    }

    /// The links that came back, in order.
    pub fn back(&self) -> &[MemLink]
        ensures told { option_map (map (λ pair. pair.1)) (⟦<MemDial as Dial>⟧.back self.now) ≡ Some result.now }
        ensures value { result.now ≡ back_of self.now }
    {
        self.back.as_slice()
    }

    /// The host and port, where the host has at most 255 bytes.
    fn called(host: &str, port: u16) -> Called
        requires { length host.now ≤ 255 }
        ensures { place_of result ≡ (host.now, port) }
    {
        let mut bytes = [0; HOST];
        bytes[..host.len()].copy_from_slice(host.as_bytes());
        Called {
            host: bytes,
            len: host.len() as u8,
            port,
        }
    }
}

impl Dial for MemDial {
    ghost use Rattle.std.specs.Prelude.{Some};
    ghost use Rattle.dap_outside.specs.MemDials.{back_of, links_of, place_of, spare_of, told_back};

    type Wire = MemLink;

    ghost back = { λ d. Some (told_back d.called.items d.back.items) };

    ghost last = { λ d. place_of d.last };

    ghost spare = { λ d. spare_of d };

    ghost faults = { λ d. d.calls.faults };

    /// Gives the first of the links that are left. Fails exactly where the call is listed, the host is
    /// longer than 255 bytes, no link is left, or no room for its return.
    fn connect(&mut self, host: &str, port: u16) -> Result<MemLink, Failed>
        ensures last { OnOk result (place_of self.new.last ≡ (host.now, port)) }
        ensures last_kept { OnErr result (self.new.last ≡ self.old.last) }
        ensures fresh { IfOk result IsNew }
        ensures gives { IfOk result (λ l. links_of self.old ≡ l ∷ links_of self.new) }
        ensures err { OnErr result (links_of self.new ≡ links_of self.old) }
        ensures room { OnOk result (0 < spare_of self.new) }
        ensures spare { spare_of self.new ≡ spare_of self.old }
        ensures back { back_of self.new ≡ back_of self.old }
        ensures called { self.new.called ≡ self.old.called }
        ensures cause { HasCause self.old.calls.faults self.new.calls.faults result }
        ensures calls { IsOneMore self.old.calls self.new.calls ((255 < length host.now) ⊎ ((length (links_of self.old) ≡ 0) ⊎ (spare_of self.old ≡ 0))) result }
    {
        let can = host.len() <= HOST && !self.links.is_empty() && self.back.len() < self.room;
        self.calls.count(can)?;
        self.last = MemDial::called(host, port);
        Ok(self.links.remove(0))
    }

    fn done(&mut self, link: MemLink)
        requires { 0 < spare_of self.old }
        ensures back { back_of self.new ≡ back_of self.old ++ link ∷ [] }
        ensures told { told_back self.new.called.items self.new.back.items ≡ told_back self.old.called.items self.old.back.items ++ (place_of self.old.last, link) ∷ [] }
        ensures last { self.new.last ≡ self.old.last }
        ensures spare { spare_of self.new ≡ spare_of self.old - 1 }
        ensures links { links_of self.new ≡ links_of self.old }
        ensures calls { self.new.calls ≡ self.old.calls }
    {
        match self.called.push(self.last) {
            Ok(()) => {}
            Err(_) => unreachable!(),
        }
        match self.back.push(link) {
            Ok(()) => {}
            Err(_) => unreachable!(),
        }
    }
}
