ghost use Rattle.std.specs.Prelude.{◌≡◌, [], ◌∷◌, ◌≤◌, codes, length, MatchOption};
ghost use Rattle.dap_http.specs.declared.kind.Kind.{Kind};
ghost use Rattle.dap_commands.specs.Words.{IsKindWord, Reads};

use crate::numbers::{number_to, seed_of};
use dap_http::{Kind, Url};
use dap_types::{Name, limits};

/// What the words after the program's name ask for.
#[derive(Clone, Copy)]
pub enum Command<'a> {
    /// `answer TARGET WORKERS`: what the target asks for, by so many workers.
    Answer(&'a str, u32),
    /// `show`: the data response that comes in, as text.
    Show,
    /// `serve PORT WORKERS REQUESTS`: so many links that come in at the port, by so many workers.
    Serve {
        port: u16,
        workers: u32,
        requests: u32,
    },
    /// `ver`: the version text.
    Ver,
    /// `soak START SIZE`: what is said of a generated file of so many records.
    Soak {
        start: u64,
        records: u32,
    },
    /// `fetch URL KIND CE [CE ..]`, where the URL may be none: what it gives for each constraint.
    Fetch {
        url: &'a str,
        kind: Kind,
        ces: &'a [Name],
    },
    /// `relay HOST UPPORT PORT ROOM REQUESTS`: so many links that come in at the port, answered out of a cache
    /// with so much room or by the server at the host and its port.
    Relay {
        host: &'a str,
        upport: u16,
        port: u16,
        room: u32,
        requests: u32,
    },
    /// `save`: the data response that comes in, as a netCDF classic file.
    Save,
    /// `save URL CE`, where the URL may be none: the same of what it gives for a constraint.
    SaveUrl {
        url: &'a str,
        ce: &'a str,
    },
    /// The words are no command.
    Other,
}

fn command_of_one(name: &str) -> Command<'_>
    ensures { Reads (name.now ∷ []) result }
{
    if name == "show" {
        Command::Show
    } else if name == "ver" {
        Command::Ver
    } else if name == "save" {
        Command::Save
    } else {
        Command::Other
    }
}

fn command_of_two<'a>(name: &str, target: &'a str) -> Command<'a>
    ensures { Reads (name.now ∷ target.now ∷ []) result }
{
    if name == "answer" {
        Command::Answer(target, 1)
    } else {
        Command::Other
    }
}

fn soak_of<'a>(start: &str, size: &str) -> Command<'a>
    ensures { Reads (codes "soak" ∷ start.now ∷ size.now ∷ []) result }
{
    match seed_of(start) {
        Some(start) => match number_to(size, limits::MOST_RECORDS) {
            Some(records) => Command::Soak {
                start,
                records: records as u32,
            },
            None => Command::Other,
        },
        None => Command::Other,
    }
}

fn command_of_three<'a>(name: &str, first: &'a str, second: &'a str) -> Command<'a>
    ensures { Reads (name.now ∷ first.now ∷ second.now ∷ []) result }
{
    if name == "answer" {
        match number_to(second, limits::MOST_WORKERS) {
            Some(workers) => Command::Answer(first, workers as u32),
            None => Command::Other,
        }
    } else if name == "soak" {
        soak_of(first, second)
    } else if name == "save" {
        Command::SaveUrl {
            url: first,
            ce: second,
        }
    } else {
        Command::Other
    }
}

fn serve_of<'a>(port: &str, workers: &str, requests: &str) -> Command<'a>
    ensures { Reads (codes "serve" ∷ port.now ∷ workers.now ∷ requests.now ∷ []) result }
{
    match number_to(port, limits::MOST_PORT) {
        Some(port) => match number_to(workers, limits::MOST_WORKERS) {
            Some(workers) => match number_to(requests, limits::MOST_LINKS) {
                Some(requests) => Command::Serve {
                    port: port as u16,
                    workers: workers as u32,
                    requests: requests as u32,
                },
                None => Command::Other,
            },
            None => Command::Other,
        },
        None => Command::Other,
    }
}

/// `relay` of a host, which may be none.
fn relay_of<'a>(host: &'a str, upport: &str, port: &str, room: &str, requests: &str) -> Command<'a>
    ensures { Reads (codes "relay" ∷ host.now ∷ upport.now ∷ port.now ∷ room.now ∷ requests.now ∷ []) result }
{
    if !Url::is_host(host.as_bytes()) {
        return Command::Other;
    }
    match number_to(upport, limits::MOST_PORT) {
        Some(upport) => match number_to(port, limits::MOST_PORT) {
            Some(port) => match number_to(room, limits::MOST_ROOM) {
                Some(room) => match number_to(requests, limits::MOST_LINKS) {
                    Some(requests) => Command::Relay {
                        host,
                        upport: upport as u16,
                        port: port as u16,
                        room: room as u32,
                        requests: requests as u32,
                    },
                    None => Command::Other,
                },
                None => Command::Other,
            },
            None => Command::Other,
        },
        None => Command::Other,
    }
}

/// The kind of which this is the word.
fn kind_of(word: &str) -> Option<Kind>
    ensures { MatchOption result ((kind : Kind) → ¬ (IsKindWord word.now kind)) (λ kind. IsKindWord word.now kind) }
{
    match word {
        "dds" => Some(Kind::Dds),
        "das" => Some(Kind::Das),
        "dods" => Some(Kind::Dods),
        _ => None,
    }
}

fn fetch_of<'a>(url: &'a str, kind: &str, ces: &'a [Name]) -> Command<'a>
    requires { 1 ≤ length ces.now }
    ensures { Reads (codes "fetch" ∷ url.now ∷ kind.now ∷ ces.now) result }
{
    if ces.len() > limits::MOST_CONSTRAINTS {
        return Command::Other;
    }
    match kind_of(kind) {
        Some(kind) => Command::Fetch { url, kind, ces },
        None => Command::Other,
    }
}

fn command_of_more<'a>(name: &str, first: &'a str, second: &'a str, rest: &'a [Name]) -> Command<'a>
    requires { 1 ≤ length rest.now }
    ensures { Reads (name.now ∷ first.now ∷ second.now ∷ rest.now) result }
{
    if name == "fetch" {
        return fetch_of(first, second, rest);
    }
    match rest {
        [third] if name == "serve" => serve_of(first, second, third.as_str()),
        [third, fourth, fifth] if name == "relay" => relay_of(
            first,
            second,
            third.as_str(),
            fourth.as_str(),
            fifth.as_str(),
        ),
        _ => Command::Other,
    }
}

/// The command that the words are.
pub fn command_of(words: &[Name]) -> Command<'_>
    ensures { Reads words.now result }
{
    match words {
        [name] => command_of_one(name.as_str()),
        [name, target] => command_of_two(name.as_str(), target.as_str()),
        [name, first, second] => command_of_three(name.as_str(), first.as_str(), second.as_str()),
        [name, first, second, third, ..] => command_of_more(
            name.as_str(),
            first.as_str(),
            second.as_str(),
            &words[3..],
        ),
        [] => Command::Other,
    }
}
