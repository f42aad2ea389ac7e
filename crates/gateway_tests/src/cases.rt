//! Which reply each request gets, which of them come out of the cache, and what is asked of the other server.

use crate::relaying::{Peer, are_replies, relayed};
use crate::texts::{
    ASKED, BAD, BAD_METHOD, BODY, BUOYS, CUT_BUOYS, DDS_RELAYED, ERROR, ERROR_REPLY, FAULT,
    GET_BUOYS, GET_CUT_DDS, GET_DAS, GET_DDS, GET_V, HEAD, HEAD_BUOYS, LIBDAP_DAS, LIBDAP_DDS,
    OLD_BUOYS, OLD_HEAD, VERSION,
};
use dap_gateway::Relayed;
use std::alloc::Global;
use std::test::Fail;

/// The links of the other server, the connects that fail, what the clients send; the statuses and which replies
/// come out of the cache, how many links came back, and the end of the last reply.
type Row<'t> = (
    &'t [Peer<'t>],
    &'t [u64],
    &'t [Peer<'t>],
    &'t [(u16, bool)],
    usize,
    &'t [u8],
);

/// What the other server has is fetched once; each target, each kind and each query is one of its own.
const KEPT: &[Row] = &[
    (
        &[(BUOYS, &[], &[])],
        &[],
        &[
            (GET_BUOYS, &[], &[]),
            (GET_BUOYS, &[], &[]),
            (GET_V, &[], &[]),
        ],
        &[(200, false), (200, true), (502, false)],
        1,
        FAULT,
    ),
    (
        &[(BUOYS, &[], &[])],
        &[],
        &[
            (HEAD_BUOYS, &[], &[]),
            (GET_BUOYS, &[], &[]),
            (HEAD_BUOYS, &[], &[]),
        ],
        &[(200, false), (200, true), (200, true)],
        1,
        HEAD,
    ),
    (
        &[(BUOYS, &[], &[])],
        &[],
        &[
            (OLD_BUOYS, &[], &[]),
            (HEAD_BUOYS, &[], &[]),
            (OLD_BUOYS, &[], &[]),
        ],
        &[(200, false), (200, true), (200, true)],
        1,
        BODY,
    ),
    (
        &[
            (LIBDAP_DDS, &[], &[]),
            (LIBDAP_DDS, &[], &[]),
            (LIBDAP_DAS, &[], &[]),
        ],
        &[],
        &[
            (GET_DDS, &[], &[]),
            (GET_CUT_DDS, &[], &[]),
            (GET_DAS, &[], &[]),
            (GET_CUT_DDS, &[], &[]),
            (GET_DDS, &[], &[]),
        ],
        &[
            (200, false),
            (200, false),
            (200, false),
            (200, true),
            (200, true),
        ],
        3,
        DDS_RELAYED,
    ),
];

/// What is no good body is answered, and asked for again.
const NOT_KEPT: &[Row] = &[
    (
        &[(CUT_BUOYS, &[], &[]), (CUT_BUOYS, &[], &[])],
        &[],
        &[(GET_BUOYS, &[], &[]), (GET_BUOYS, &[], &[])],
        &[(502, false), (502, false)],
        2,
        BAD,
    ),
    (
        &[(ERROR_REPLY, &[], &[]), (ERROR_REPLY, &[], &[])],
        &[],
        &[(GET_V, &[], &[]), (GET_V, &[], &[])],
        &[(400, false), (400, false)],
        2,
        ERROR,
    ),
    (
        &[(b"HTTP/1.1 200 OK\r\nContent-", &[], &[])],
        &[],
        &[(GET_V, &[], &[])],
        &[(502, false)],
        1,
        b"code = 22;\n    message = \"bad upstream reply at 0\";\n};\n",
    ),
    (
        &[(b"", &[], &[])],
        &[],
        &[(GET_V, &[], &[])],
        &[(502, false)],
        1,
        b"code = 22;\n    message = \"bad upstream reply at 0\";\n};\n",
    ),
    (
        &[(
            b"HTTP/1.1 200 OK\r\nTransfer-Encoding: chunked\r\n\r\n8\r\nData",
            &[],
            &[],
        )],
        &[],
        &[(GET_V, &[], &[])],
        &[(502, false)],
        1,
        b"code = 22;\n    message = \"bad upstream reply at 4\";\n};\n",
    ),
    (
        &[(
            b"HTTP/1.1 200 OK\r\nTransfer-Encoding: chunked\r\n\r\n8\r\nDataset \r\nzz\r\n",
            &[],
            &[],
        )],
        &[],
        &[(GET_V, &[], &[])],
        &[(502, false)],
        1,
        b"code = 22;\n    message = \"bad upstream reply at 13\";\n};\n",
    ),
    (
        &[(
            b"HTTP/1.1 200 OK\r\nContent-Length: 20\r\n\r\nDataset {\n",
            &[],
            &[],
        )],
        &[],
        &[(GET_V, &[], &[])],
        &[(502, false)],
        1,
        b"code = 22;\n    message = \"bad upstream reply at 10\";\n};\n",
    ),
    (
        &[(
            b"HTTP/1.1 200 OK\r\nContent-Encoding: gzip\r\nContent-Length: 3\r\n\r\n\x1f\x8b\x08",
            &[],
            &[],
        )],
        &[],
        &[(GET_V, &[], &[])],
        &[(502, false)],
        1,
        b"code = 22;\n    message = \"bad upstream reply at 0\";\n};\n",
    ),
];

/// A server that is not there, cannot be asked or falls silent is answered for, and the next request asks it again.
const FAULTS: &[Row] = &[
    (
        &[(BUOYS, &[], &[])],
        &[1],
        &[
            (GET_BUOYS, &[], &[]),
            (GET_BUOYS, &[], &[]),
            (GET_BUOYS, &[], &[]),
        ],
        &[(502, false), (200, false), (200, true)],
        1,
        BUOYS,
    ),
    (
        &[(BUOYS, &[1], &[]), (BUOYS, &[], &[])],
        &[],
        &[
            (GET_BUOYS, &[], &[]),
            (GET_BUOYS, &[], &[]),
            (GET_BUOYS, &[], &[]),
        ],
        &[(502, false), (200, false), (200, true)],
        2,
        BUOYS,
    ),
    (
        &[(BUOYS, &[], &[1])],
        &[],
        &[(GET_BUOYS, &[], &[])],
        &[(502, false)],
        1,
        FAULT,
    ),
];

/// Of these nothing is asked of the other server: no link is there to be had.
const EARLY: &[Row] = &[
    (
        &[],
        &[],
        &[(b"POST /buoys.csv.dods HTTP/1.1\r\n\r\n", &[], &[])],
        &[(405, false)],
        0,
        BAD_METHOD,
    ),
    (
        &[],
        &[],
        &[(b"GET /any.ver HTTP/1.1\r\n\r\n", &[], &[])],
        &[(200, false)],
        0,
        VERSION,
    ),
    (
        &[],
        &[],
        &[
            (b"GET /none.html HTTP/1.1\r\n\r\n", &[], &[]),
            (b"GET /../v.nc.dds HTTP/1.1\r\n\r\n", &[], &[]),
        ],
        &[(400, false), (400, false)],
        0,
        b"Error {\n    code = 14;\n    message = \"bad target\";\n};\n",
    ),
    (
        &[],
        &[],
        &[(b"no request\r\n\r\n", &[], &[])],
        &[(400, false)],
        0,
        b"Error {\n    code = 17;\n    message = \"bad request\";\n};\n",
    ),
];

fn holds(alloc: Global, row: &Row) -> Result<bool, Fail> {
    let (servers, connects, clients, ends, back, last) = *row;
    let done = relayed(alloc, servers, connects, clients, 4, 65_536)?;
    let ends_so = match done.written.items() {
        [.., written] => written.bytes().ends_with(last),
        [] => false,
    };
    Ok(are_replies(done.ends.as_slice(), ends) && done.asked.items().len() == back && ends_so)
}

#[test]
fn each_request_gets_its_reply(rt: HostRuntime) -> Result<(), Fail> {
    for rows in [KEPT, NOT_KEPT, FAULTS, EARLY] {
        for (number, row) in rows.iter().enumerate() {
            assert!(rt; holds(rt.alloc(), row)?, "{number}");
        }
    }
    Ok(())
}

/// The replies whole, and what the other server is asked.
#[test]
fn a_body_is_fetched_once(rt: HostRuntime) -> Result<(), Fail> {
    let client: Peer = (GET_BUOYS, &[], &[]);
    let server: Peer = (BUOYS, &[], &[]);
    let done = relayed(rt.alloc(), &[server], &[], &[client, client], 4, 7)?;
    for written in done.written.items() {
        assert_eq!(rt; written.bytes(), BUOYS);
    }
    for asked in done.asked.items() {
        assert_eq!(rt; asked.bytes(), ASKED);
    }
    Ok(())
}

/// A head of HTTP/1.0 has no coding.
#[test]
fn a_hit_is_as_its_request_asks(rt: HostRuntime) -> Result<(), Fail> {
    let server: Peer = (BUOYS, &[], &[]);
    let clients: [Peer; 2] = [(GET_BUOYS, &[], &[]), (OLD_BUOYS, &[], &[])];
    let done = relayed(rt.alloc(), &[server], &[], &clients, 1, 65_536)?;
    match done.written.items() {
        [first, second] => {
            assert_eq!(rt; first.bytes(), BUOYS);
            assert!(rt; second.bytes().starts_with(OLD_HEAD));
            assert_eq!(rt; second.bytes().len(), OLD_HEAD.len() + BODY.len());
        }
        _ => return Err(Fail::from("two replies")),
    }
    Ok(())
}

/// With room for one body the second drops the first; with room for two it drops none.
#[test]
fn a_full_cache_drops_its_last(rt: HostRuntime) -> Result<(), Fail> {
    let server: Peer = (BUOYS, &[], &[]);
    let servers = [server, server, server, server];
    let (buoys, v): (Peer, Peer) = ((GET_BUOYS, &[], &[]), (GET_V, &[], &[]));
    let done = relayed(rt.alloc(), &servers, &[], &[buoys, v, buoys], 1, 65_536)?;
    let missed = [(200, false), (200, false), (200, false)];
    assert!(rt; are_replies(done.ends.as_slice(), &missed));
    let done = relayed(rt.alloc(), &servers, &[], &[buoys, v, buoys], 2, 65_536)?;
    assert!(rt;
        are_replies(
            done.ends.as_slice(),
            &[(200, false), (200, false), (200, true)]
        )
    );
    Ok(())
}

/// The last one used is kept: the buoys are asked for again behind `v.nc`, so that the third drops that.
#[test]
fn a_hit_moves_to_the_front(rt: HostRuntime) -> Result<(), Fail> {
    let server: Peer = (BUOYS, &[], &[]);
    let servers = [server, server, server, server];
    let (buoys, v): (Peer, Peer) = ((GET_BUOYS, &[], &[]), (GET_V, &[], &[]));
    let third: Peer = (b"GET /third.dods HTTP/1.1\r\n\r\n", &[], &[]);
    let clients = [buoys, v, buoys, third, buoys, v];
    let done = relayed(rt.alloc(), &servers, &[], &clients, 2, 65_536)?;
    let ends = [
        (200, false),
        (200, false),
        (200, true),
        (200, false),
        (200, true),
        (200, false),
    ];
    assert!(rt; are_replies(done.ends.as_slice(), &ends));
    Ok(())
}

/// A client that says nothing is gone.
#[test]
fn a_client_that_is_gone_gets_nothing(rt: HostRuntime) -> Result<(), Fail> {
    let done = relayed(rt.alloc(), &[], &[], &[(b"", &[], &[])], 1, 65_536)?;
    assert_eq!(rt; done.ends.as_slice(), [Relayed::Gone].as_slice());
    for written in done.written.items() {
        assert!(rt; written.bytes().is_empty());
    }
    Ok(())
}
