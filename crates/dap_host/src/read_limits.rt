ghost use Rattle.std.specs.Prelude.{◌≡◌, ◌<◌, ◌↔◌, ◌⊎◌, IsTrue, None, MatchOption, false, if◌then◌else◌};
ghost use Rattle.std.specs.Duration.{as_nanos};
ghost use Rattle.dap_host.specs.Budgets.{IsFresh, IsNew, IsSpent};
ghost use Rattle.dap_host.specs.Waits.{AreSpent, read_wait};

use crate::budget::Budget;
use std::time::Duration;

/// For how many seconds a peer that is served may be silent.
const SERVED_GAP: u64 = 2;

/// For how many seconds the requests of a connection are waited for, all together.
const REQUESTS: u64 = 10;

/// For how many seconds a request's head is waited for, from its first byte on.
const HEAD: u64 = 5;

/// For how many seconds a server that is asked may be silent.
const ASKED_GAP: u64 = 30;

/// For how many seconds a reply is waited for from its first byte on, and how many bytes of it bring one second more.
const REPLY: u64 = 30;

const REPLY_BYTES: u64 = 16_384;

/// For how long the bytes of a peer are waited for: a gap without a byte, all reads of a connection together, and
/// one message. A message begins with the first byte that is read behind a write, or at all: the wait for it counts
/// for the gap and the connection alone.
#[derive(Clone, Copy, Debug)]
pub struct ReadLimits {
    gap: Duration,
    connection: Option<Budget>,
    message: Budget,
    begun: bool,
}

impl ReadLimits {
    /// These limits, of a peer that sent nothing yet.
    pub fn new(gap: Duration, connection: Option<Budget>, message: Budget) -> ReadLimits
        ensures given { (result.gap ≡ gap) × (result.connection ≡ connection) × (result.message ≡ message) }
        ensures waits { result.begun ≡ false }
    {
        ReadLimits {
            gap,
            connection,
            message,
            begun: false,
        }
    }

    /// Of a peer that is served: 2 seconds without a byte, 10 seconds for all requests of the connection, 5 seconds
    /// for a head from its first byte on.
    pub fn served() -> ReadLimits
        ensures gap { as_nanos result.gap ≡ 2_000_000_000 }
        ensures requests { MatchOption result.connection ⊥ (λ b. IsNew b 10_000_000_000 0) }
        ensures head { IsNew result.message 5_000_000_000 0 }
        ensures waits { result.begun ≡ false }
    {
        ReadLimits::new(
            Duration::from_secs(SERVED_GAP),
            Some(Budget::new(Duration::from_secs(REQUESTS), 0)),
            Budget::new(Duration::from_secs(HEAD), 0),
        )
    }

    /// Of a server that is asked: 30 seconds without a byte, and for a reply from its first byte on 30 seconds, and one
    /// second more for each 16,384 bytes.
    pub fn asked() -> ReadLimits
        ensures gap { as_nanos result.gap ≡ 30_000_000_000 }
        ensures connection { result.connection ≡ None }
        ensures reply { IsNew result.message 30_000_000_000 16_384 }
        ensures waits { result.begun ≡ false }
    {
        ReadLimits::new(
            Duration::from_secs(ASKED_GAP),
            None,
            Budget::new(Duration::from_secs(REPLY), REPLY_BYTES),
        )
    }

    /// For how long the next read may wait: not at all where a budget is used up.
    pub fn wait(&self) -> Duration
        ensures { as_nanos result ≡ read_wait self.now }
    {
        let mut wait = self.gap;
        if let Some(connection) = self.connection {
            wait = wait.min(connection.left());
        }
        if self.begun {
            wait = wait.min(self.message.left());
        }
        wait
    }

    /// A read waited for as long as this, and so many bytes came.
    pub fn read(&mut self, waited: Duration, bytes: usize)
        ensures gap { self.new.gap ≡ self.old.gap }
        ensures connection { AreSpent self.old.connection self.new.connection (as_nanos waited) bytes }
        ensures message { IsSpent self.old.message self.new.message (if self.old.begun then as_nanos waited else 0) bytes }
        ensures begun { IsTrue self.new.begun ↔ (IsTrue self.old.begun ⊎ (0 < bytes)) }
    {
        self.connection = match self.connection {
            Some(connection) => Some(connection.spent(waited, bytes)),
            None => None,
        };
        let of_message = if self.begun { waited } else { Duration::ZERO };
        self.message = self.message.spent(of_message, bytes);
        self.begun = self.begun || bytes > 0;
    }

    /// A write was made: what is read from here on is another message.
    pub fn written(&mut self)
        ensures gap { self.new.gap ≡ self.old.gap }
        ensures connection { self.new.connection ≡ self.old.connection }
        ensures message { IsFresh self.old.message self.new.message }
        ensures waits { self.new.begun ≡ false }
    {
        self.message = self.message.renewed();
        self.begun = false;
    }
}
