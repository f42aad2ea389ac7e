ghost use Rattle.std.specs.Prelude.{◌≡◌, ◌≤◌, Some, None, IfOk, IsTrue, MatchOption, length};
ghost use Rattle.std.specs.List.{after_first, before_first, position_or_len};
ghost use Rattle.percent_encoding.specs.Percent.{percent_decode};

use crate::Kind;
use crate::first_byte::place_of;
use dap_types::{Bytes, Memory, Name, limits};
use percent_encoding::percent_decode;
use std::alloc::Global;
use std::str;
use target_names::is_name;

/// What a target asks for (RFC 9112, section 3.2; DAP 2.0, URL suffixes).
#[derive(Debug, Drop)]
pub struct Target {
    pub name: Name,
    pub kind: Kind,
    pub query: Bytes,
}

/// Why a target is refused.
#[derive(Clone, Copy, Debug, PartialEq, Eq)]
pub enum TargetRefusal {
    BadTarget,
    Memory,
}

impl From<Memory> for TargetRefusal {
    ghost use Rattle.dap_http.specs.declared.target.TargetRefusal.TheVariants as refusal;

    ghost from_gives = { λ m r. r ≡ refusal.Memory };

    fn from(_: Memory) -> Self {
        TargetRefusal::Memory
    }
}

impl Target {
    ghost use Rattle.target_names.specs.Names.{is_name};
    ghost use Rattle.dap_http.specs.Targets.{asked_in, from_slash, is_mark, is_target_long, kind_of, kinded_in, named_in, path_of, query_of, target_of, without_origin, without_slash, without_suffix};

    /// Reads a target in the six steps of `specs/Targets`.
    #[tactic(auto, unfolding(crate::specs::Targets::target_of))]
    pub fn read(alloc: Global, target: &[u8]) -> Result<Target, TargetRefusal>
        ensures ok { IfOk result (λ t. target_of target.now ≡ Some (record { name = t.name; kind = t.kind; query = t.query })) }
        ensures bad { result ≡ Err TargetRefusal.BadTarget → target_of target.now ≡ None }
    {
        if !Target::is_long(target) {
            return Err(TargetRefusal::BadTarget);
        }
        match Target::without_origin(target) {
            Some(rest) => Target::asked(alloc, Target::without_slash(rest)),
            None => Err(TargetRefusal::BadTarget),
        }
    }

    fn is_long(target: &[u8]) -> bool
        ensures { result ≡ is_target_long target.now }
    {
        !target.is_empty() && target.len() <= limits::MOST_TARGET
    }

    fn without_origin(target: &[u8]) -> Option<&[u8]>
        ensures { MatchOption result (without_origin target.now ≡ None) (λ r. without_origin target.now ≡ Some r.now) }
    {
        if target.starts_with(b"http://") {
            return Target::from_slash(&target[7..]);
        }
        Some(target)
    }

    pub(crate) fn from_slash(bytes: &[u8]) -> Option<&[u8]>
        ensures { MatchOption result (from_slash bytes.now ≡ None) (λ r. from_slash bytes.now ≡ Some r.now) }
    {
        let mut left = bytes;
        while let [first, rest @ ..] = left {
            if *first == b'/' {
                return Some(left);
            }
            left = rest;
        }
        None
    }

    fn without_slash(rest: &[u8]) -> &[u8]
        ensures { result.now ≡ without_slash rest.now }
    {
        match rest {
            [b'/', tail @ ..] => tail,
            _ => rest,
        }
    }

    /// What stands behind the origin, from its path on.
    fn asked(alloc: Global, rest: &[u8]) -> Result<Target, TargetRefusal>
        ensures ok { IfOk result (λ t. kinded_in (path_of rest.now) (query_of rest.now) (kind_of (path_of rest.now)) ≡ Some (record { name = t.name; kind = t.kind; query = t.query })) }
        ensures bad { result ≡ Err TargetRefusal.BadTarget → kinded_in (path_of rest.now) (query_of rest.now) (kind_of (path_of rest.now)) ≡ None }
    {
        let place = Target::mark_of(rest);
        let path = Target::decoded(alloc, &rest[..place])?;
        let query = Target::decoded(alloc, Target::behind_mark(rest, place))?;
        match Target::kind_of(path.as_slice()) {
            Some(kind) => {
                let name = Target::without_suffix(path.as_slice(), kind);
                if !is_name(name) {
                    return Err(TargetRefusal::BadTarget);
                }
                Ok(Target {
                    name: Target::name_of(alloc, name)?,
                    kind,
                    query: Bytes::from_vec(query),
                })
            }
            None => Err(TargetRefusal::BadTarget),
        }
    }

    fn mark_of(bytes: &[u8]) -> usize
        ensures within { result ≤ length bytes.now }
        ensures place { result ≡ position_or_len is_mark bytes.now }
    {
        place_of(bytes, b'?')
    }

    fn behind_mark(bytes: &[u8], place: usize) -> &[u8]
        requires { place ≡ position_or_len is_mark bytes.now }
        ensures { result.now ≡ after_first is_mark bytes.now }
    {
        if place < bytes.len() {
            return &bytes[place + 1..];
        }
        b""
    }

    fn decoded(alloc: Global, bytes: &[u8]) -> Result<Vec<u8>, Memory>
        ensures { IfOk result (λ v. v.items ≡ percent_decode bytes.now) }
    {
        let mut out = Vec::new(alloc);
        percent_decode(bytes).append_to(&mut out)?;
        Ok(out)
    }

    fn kind_of(path: &[u8]) -> Option<Kind>
        ensures { result ≡ kind_of path.now }
    {
        if path.ends_with(b".dds") {
            return Some(Kind::Dds);
        }
        if path.ends_with(b".das") {
            return Some(Kind::Das);
        }
        if path.ends_with(b".dods") {
            return Some(Kind::Dods);
        }
        if path.ends_with(b".ver") {
            return Some(Kind::Ver);
        }
        None
    }

    fn without_suffix(path: &[u8], kind: Kind) -> &[u8]
        ensures { result.now ≡ without_suffix kind path.now }
    {
        &path[..path.len().saturating_sub(kind.suffix().len())]
    }

    fn name_of(alloc: Global, name: &[u8]) -> Result<Name, Memory>
        requires { IsTrue (is_name name.now) }
        ensures { IfOk result (λ n. n ≡ name.now) }
    {
        match str::from_utf8(name) {
            Ok(text) => Name::new(alloc, text),
            Err(_) => unreachable!(),
        }
    }
}
