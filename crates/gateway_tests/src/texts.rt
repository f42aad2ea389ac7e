//! Requests and replies, worked out by hand.

pub const HEAD: &[u8] =
    b"HTTP/1.1 200 OK\r\nXDODS-Server: dap2/1.0\r\nXDAP: 2.0\r\nContent-Description: dods_data\r\nContent-Type: application/octet-stream\r\nTransfer-Encoding: chunked\r\nConnection: close\r\n\r\n";

pub const OLD_HEAD: &[u8] =
    b"HTTP/1.1 200 OK\r\nXDODS-Server: dap2/1.0\r\nXDAP: 2.0\r\nContent-Description: dods_data\r\nContent-Type: application/octet-stream\r\nConnection: close\r\n\r\n";

pub const BODY: &[u8] =
    b"Dataset {\n    Sequence {\n        String station;\n        Int32 depth;\n    } buoys;\n} buoys.csv;\nData:\n\x5a\0\0\0\0\0\0\x02A1\0\0\0\0\0\x05\x5a\0\0\0\0\0\0\x03B22\0\xff\xff\xff\xf9\xa5\0\0\0";

pub const FIRST_CHUNK: &[u8] = b"8a\r\n";

pub const LAST_CHUNK: &[u8] = b"\r\n0\r\n\r\n";

pub const GET_BUOYS: &[u8] = b"GET /buoys.csv.dods HTTP/1.1\r\nHost: x\r\n\r\n";

pub const HEAD_BUOYS: &[u8] = b"HEAD /buoys.csv.dods HTTP/1.1\r\n\r\n";

pub const OLD_BUOYS: &[u8] = b"GET /buoys.csv.dods HTTP/1.0\r\n\r\n";

pub const GET_V: &[u8] = b"GET /v.nc.dods HTTP/1.1\r\n\r\n";

pub const ASKED: &[u8] =
    b"GET /buoys.csv.dods HTTP/1.1\r\nHost: up.example:8080\r\nUser-Agent: dap2/1.0\r\nAccept-Encoding: identity\r\nConnection: close\r\n\r\n";

pub const FAULT: &[u8] =
    b"HTTP/1.1 502 Bad Gateway\r\nXDODS-Server: dap2/1.0\r\nXDAP: 2.0\r\nContent-Description: dods_error\r\nContent-Type: text/plain\r\nContent-Length: 58\r\nConnection: close\r\n\r\nError {\n    code = 23;\n    message = \"upstream fault\";\n};\n";

pub const BAD: &[u8] =
    b"HTTP/1.1 502 Bad Gateway\r\nXDODS-Server: dap2/1.0\r\nXDAP: 2.0\r\nContent-Description: dods_error\r\nContent-Type: text/plain\r\nContent-Length: 69\r\nConnection: close\r\n\r\nError {\n    code = 22;\n    message = \"bad upstream reply at 138\";\n};\n";

pub const ERROR_REPLY: &[u8] =
    b"HTTP/1.1 404 Not Found\r\nContent-Length: 56\r\n\r\nError {\n    code = 15;\n    message = \"no such file\";\n};\n";

pub const ERROR: &[u8] =
    b"HTTP/1.1 400 Bad Request\r\nXDODS-Server: dap2/1.0\r\nXDAP: 2.0\r\nContent-Description: dods_error\r\nContent-Type: text/plain\r\nContent-Length: 56\r\nConnection: close\r\n\r\nError {\n    code = 15;\n    message = \"no such file\";\n};\n";

pub const BAD_METHOD: &[u8] =
    b"HTTP/1.1 405 Method Not Allowed\r\nXDODS-Server: dap2/1.0\r\nXDAP: 2.0\r\nAllow: GET, HEAD\r\nContent-Description: dods_error\r\nContent-Type: text/plain\r\nContent-Length: 54\r\nConnection: close\r\n\r\nError {\n    code = 16;\n    message = \"bad method\";\n};\n";

pub const VERSION: &[u8] =
    b"HTTP/1.1 200 OK\r\nXDODS-Server: dap2/1.0\r\nXDAP: 2.0\r\nContent-Description: dods_version\r\nContent-Type: text/plain\r\nContent-Length: 47\r\nConnection: close\r\n\r\nCore version: DAP/2.0\nServer version: dap2/1.0\n";

/// The reply of a server to a request for the buoys.
pub const BUOYS: &[u8] =
    b"HTTP/1.1 200 OK\r\nXDODS-Server: dap2/1.0\r\nXDAP: 2.0\r\nContent-Description: dods_data\r\nContent-Type: application/octet-stream\r\nTransfer-Encoding: chunked\r\nConnection: close\r\n\r\n8a\r\nDataset {\n    Sequence {\n        String station;\n        Int32 depth;\n    } buoys;\n} buoys.csv;\nData:\n\x5a\0\0\0\0\0\0\x02A1\0\0\0\0\0\x05\x5a\0\0\0\0\0\0\x03B22\0\xff\xff\xff\xf9\xa5\0\0\0\r\n0\r\n\r\n";

/// The same without its last 5 bytes.
pub const CUT_BUOYS: &[u8] =
    b"HTTP/1.1 200 OK\r\nXDODS-Server: dap2/1.0\r\nXDAP: 2.0\r\nContent-Description: dods_data\r\nContent-Type: application/octet-stream\r\nTransfer-Encoding: chunked\r\nConnection: close\r\n\r\n8a\r\nDataset {\n    Sequence {\n        String station;\n        Int32 depth;\n    } buoys;\n} buoys.csv;\nData:\n\x5a\0\0\0\0\0\0\x02A1\0\0\0\0\0\x05\x5a\0\0\0\0\0\0\x03B22\0\xff\xff\xff\xf9\xa5\0\0\0\r\n";

/// A DDS and a DAS as libdap's server classes send them: over HTTP/1.0, with other names in the head.
pub const LIBDAP_DDS: &[u8] =
    b"HTTP/1.0 200 OK\r\nXDODS-Server: libdap/3.20.11\r\nXOPeNDAP-Server: libdap/3.20.11\r\nXDAP: 3.2\r\nDate: Sun, 29 Nov 2026 11:43:00 GMT\r\nLast-Modified: Sun, 29 Nov 2026 11:43:00 GMT\r\nContent-Type: text/plain\r\nContent-Description: dods-dds\r\n\r\nDataset {\n    Int32 v[y = 3][x = 4];\n} v;\n";

pub const LIBDAP_DAS: &[u8] =
    b"HTTP/1.0 200 OK\r\nXDODS-Server: libdap/3.20.11\r\nContent-Type: text/plain\r\nContent-Description: dods-das\r\n\r\nAttributes {\n    v {\n        String units \"m\";\n    }\n}\n";

/// What the gateway makes of it.
pub const DDS_RELAYED: &[u8] =
    b"HTTP/1.1 200 OK\r\nXDODS-Server: dap2/1.0\r\nXDAP: 2.0\r\nContent-Description: dods_dds\r\nContent-Type: text/plain\r\nContent-Length: 42\r\nConnection: close\r\n\r\nDataset {\n    Int32 v[y = 3][x = 4];\n} v;\n";

pub const GET_DDS: &[u8] = b"GET /v.nc.dds HTTP/1.1\r\n\r\n";

pub const GET_CUT_DDS: &[u8] = b"GET /v.nc.dds?v[0:2][0:3] HTTP/1.1\r\n\r\n";

pub const GET_DAS: &[u8] = b"GET /v.nc.das HTTP/1.1\r\n\r\n";
