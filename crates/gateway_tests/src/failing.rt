//! Each call of a link fails in turn.

use crate::relaying::{Peer, are_replies, relayed};
use crate::texts::{ASKED, BUOYS, GET_BUOYS};
use dap_gateway::Relayed;
use dap_types::Memory;
use std::alloc::Global;
use std::test::Fail;

/// The bytes of a link that go at once.
const PIECE: u32 = 10;

/// So many pieces for that many bytes.
fn pieces(len: usize) -> u64 {
    let whole = (len / 10) as u64;
    if len % 10 == 0 { whole } else { whole + 1 }
}

/// A request over a server's link of these faults, and the same request over a sure one, then out of the cache:
/// whether the first is answered with this status, and the others with 200.
fn answers(alloc: Global, server: Peer, status: u16) -> Result<bool, Memory> {
    let client: Peer = (GET_BUOYS, &[], &[]);
    let servers: [Peer; 2] = [server, (BUOYS, &[], &[])];
    let done = relayed(alloc, &servers, &[], &[client, client, client], 4, PIECE)?;
    let misses = status == 200;
    Ok(are_replies(
        done.ends.as_slice(),
        &[(status, false), (200, misses), (200, true)],
    ))
}

#[test]
fn each_call_of_the_servers_link(rt: HostRuntime) -> Result<(), Fail> {
    for number in 1..=pieces(BUOYS.len()) {
        assert!(rt;
            answers(rt.alloc(), (BUOYS, &[number], &[]), 502)?,
            "{number}"
        );
    }
    for number in 1..=pieces(ASKED.len()) {
        assert!(rt;
            answers(rt.alloc(), (BUOYS, &[], &[number]), 502)?,
            "{number}"
        );
    }
    // and no call more
    let takes = [pieces(BUOYS.len()).saturating_add(1)];
    let puts = [pieces(ASKED.len()).saturating_add(1)];
    assert!(rt; answers(rt.alloc(), (BUOYS, &takes, &puts), 200)?);
    Ok(())
}

/// How the request of a client ends whose link has faults, and how the same over a sure link does behind it.
fn ends(alloc: Global, client: Peer) -> Result<(Relayed, Relayed), Fail> {
    let sure: Peer = (GET_BUOYS, &[], &[]);
    let server: Peer = (BUOYS, &[], &[]);
    let done = relayed(alloc, &[server, server], &[], &[client, sure], 4, PIECE)?;
    match done.ends.as_slice() {
        [first, second] => Ok((*first, *second)),
        _ => Err(Fail::from("two requests")),
    }
}

/// What was fetched for a client that took too little is kept.
#[test]
fn each_call_of_the_clients_link(rt: HostRuntime) -> Result<(), Fail> {
    let (hit, miss) = (
        Relayed::Replied {
            status: 200,
            hit: true,
        },
        Relayed::Replied {
            status: 200,
            hit: false,
        },
    );
    for number in 1..=pieces(GET_BUOYS.len()) {
        let found = ends(rt.alloc(), (GET_BUOYS, &[number], &[]))?;
        assert_eq!(rt; found, (Relayed::ReadFault, miss));
    }
    for number in 1..=pieces(BUOYS.len()) {
        let found = ends(rt.alloc(), (GET_BUOYS, &[], &[number]))?;
        assert_eq!(rt; found, (Relayed::WriteFault, hit));
    }
    // and no call more: a head and its body go out in one piece
    let takes = [pieces(GET_BUOYS.len()).saturating_add(1)];
    let puts = [pieces(BUOYS.len()).saturating_add(1)];
    let found = ends(rt.alloc(), (GET_BUOYS, &takes, &puts))?;
    assert_eq!(rt; found, (miss, hit));
    Ok(())
}
