//! Requests that are relayed over a dial and links in memory.

ghost use Rattle.std.specs.Prelude.{All, IfOk, OnOk};
ghost use Rattle.dap_outside.specs.MemLinks.{IsNew};

use dap_gateway::{Cache, Relayed, relay_connection};
use dap_outside::{MemDial, MemLink};
use dap_types::{Bytes, List, Memory};
use std::alloc::Global;

/// How each connection ended and what was written on it, and what was asked over the links that came back.
#[derive(Drop)]
pub struct Done {
    pub ends: Vec<Relayed>,
    pub written: List<Bytes>,
    pub asked: List<Bytes>,
}

/// A link: what it gives, and the numbers of its calls of `take` and of `put` that fail.
pub type Peer<'t> = (&'t [u8], &'t [u64], &'t [u64]);

pub fn numbers(alloc: Global, all: &[u64]) -> Result<List<u64>, Memory> {
    let mut list = List::new(alloc);
    for number in all {
        list.push(*number)?;
    }
    Ok(list)
}

/// A link that takes so many bytes, in pieces of this many.
pub fn link(alloc: Global, peer: Peer, room: u32, piece: u32) -> Result<MemLink, Memory>
    ensures { IfOk result IsNew }
{
    let (input, takes, puts) = peer;
    let bytes = Bytes::new(alloc, input)?;
    MemLink::new(
        alloc,
        bytes,
        room,
        piece.max(1),
        numbers(alloc, takes)?,
        numbers(alloc, puts)?,
    )
}

/// The link of the peer with this number goes behind the others, if there is one.
fn add_link(
    alloc: Global,
    links: &mut List<MemLink>,
    peers: &[Peer],
    number: usize,
    piece: u32,
) -> Result<(), Memory>
    requires { All IsNew links.old }
    ensures { OnOk result (All IsNew links.new) }
{
    match peers.get(number) {
        Some(peer) => {
            let link = link(alloc, *peer, 4_096, piece)?;
            links.push(link)?;
            Ok(())
        }
        None => Ok(()),
    }
}

/// Their links, of four at most.
pub fn links(alloc: Global, peers: &[Peer], piece: u32) -> Result<List<MemLink>, Memory>
    ensures { IfOk result (All IsNew) }
{
    let mut links = List::new(alloc);
    add_link(alloc, &mut links, peers, 0, piece)?;
    add_link(alloc, &mut links, peers, 1, piece)?;
    add_link(alloc, &mut links, peers, 2, piece)?;
    add_link(alloc, &mut links, peers, 3, piece)?;
    Ok(links)
}

/// Relays what each client sends in turn, over one cache with room for so many bodies, where the other server's links
/// are these; the calls of `connect` with these numbers fail. A client takes at most 4 MiB.
pub fn relayed(
    alloc: Global,
    servers: &[Peer],
    connects: &[u64],
    clients: &[Peer],
    room: u32,
    piece: u32,
) -> Result<Done, Memory> {
    relayed_to(alloc, servers, connects, clients, room, piece, 4_194_304)
}

/// The same, where a client takes at most so many bytes.
pub fn relayed_to(
    alloc: Global,
    servers: &[Peer],
    connects: &[u64],
    clients: &[Peer],
    room: u32,
    piece: u32,
    most: u32,
) -> Result<Done, Memory> {
    let mut dial = MemDial::new(
        alloc,
        links(alloc, servers, piece)?,
        numbers(alloc, connects)?,
    )?;
    let mut cache = Cache::new(alloc, room.clamp(1, 1024))?;
    let mut ends = Vec::new(alloc);
    let mut written = List::new(alloc);
    for client in clients {
        let mut link = link(alloc, *client, most, piece)?;
        ends.push(relay_connection(alloc, &mut link, &mut dial, b"up.example", 8080, &mut cache))?;
        written.push(Bytes::new(alloc, link.written())?)?;
    }
    let mut asked = List::new(alloc);
    for link in dial.back() {
        asked.push(Bytes::new(alloc, link.written())?)?;
    }
    Ok(Done {
        ends,
        written,
        asked,
    })
}

/// The replies had these statuses, and came out of the cache where that is said.
pub fn are_replies(ends: &[Relayed], wanted: &[(u16, bool)]) -> bool {
    if ends.len() != wanted.len() {
        return false;
    }
    for (number, end) in ends.iter().enumerate() {
        match wanted.get(number) {
            Some((status, hit)) => {
                let wanted = Relayed::Replied {
                    status: *status,
                    hit: *hit,
                };
                if *end != wanted {
                    return false;
                }
            }
            None => return false,
        }
    }
    true
}
