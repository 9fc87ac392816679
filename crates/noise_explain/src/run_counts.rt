//! What the parties of a vector file did in its run.

ghost use Rattle.std.specs.Prelude.{◌≡◌, ◌+◌, ◌-◌, ◌<◌, ◌^◌, ◌++◌, ◌∷◌, [], List, ℕ, length};
ghost use Rattle.noise_explain.specs.RunCounts.{CountsParty, CountsRun};

use noise_names::Role;
use std::alloc::{AllocError, Global};

/// What a party does.
#[derive(Clone, Copy, Debug, PartialEq, Eq)]
pub enum Act {
    /// It wrote a message.
    Wrote,
    /// It accepted a message.
    Accepted,
    /// It refused a transport message.
    Dropped,
    /// It sealed a datagram.
    Sealed,
    /// It opened a datagram.
    Opened,
    /// It refused a datagram.
    Rejected,
}

// How often one party did what.
#[derive(Clone, Copy)]
pub(crate) struct PartyCounts {
    // How many messages of the handshake have passed, as this party sees it.
    pub passed: usize,
    pub wrote: usize,
    pub accepted: usize,
    pub sent: usize,
    pub received: usize,
    pub dropped: usize,
    pub sealed: usize,
    pub opened: usize,
    pub rejected: usize,
    pub is_open: bool,
}

// A message of the handshake that a party refused, from 1 on, at which token, and why.
#[derive(Clone, Copy)]
pub(crate) struct Refusal {
    pub role: Role,
    pub message: usize,
    pub token: u8,
    pub cause: &'static str,
}

/// How often each party did what in a run, and what it refused of the handshake.
#[derive(Drop)]
pub struct RunCounts {
    messages: usize,
    pub(crate) initiator: PartyCounts,
    pub(crate) responder: PartyCounts,
    pub(crate) has_datagrams: bool,
    pub(crate) refusals: Vec<Refusal>,
}

impl RunCounts {
    /// Before a run whose handshake has so many messages.
    pub fn new(alloc: Global, messages: usize) -> RunCounts
        ensures counted { CountsRun messages [] result }
    {
        RunCounts {
            messages,
            initiator: NONE,
            responder: NONE,
            has_datagrams: false,
            refusals: Vec::new(alloc),
        }
    }

    /// Counts what the party of this role did.
    pub fn count(&mut self, role: Role, act: Act)
        ensures counted { (messages : ℕ) (acts : List (Role × Act)) → length acts < 2 ^ 64 - 1
            → CountsRun messages acts self.old → CountsRun messages (acts ++ (role, act) ∷ []) self.new }
    {
        match role {
            Role::Initiator => self.initiator = self.initiator.after(act, self.messages),
            Role::Responder => self.responder = self.responder.after(act, self.messages),
        }
    }

    /// Notes that the party of this role refused a message of the handshake at this token.
    pub fn refuse(&mut self, role: Role, token: u8, cause: &'static str) -> Result<(), AllocError>
        ensures counted { (messages : ℕ) (acts : List (Role × Act)) → CountsRun messages acts self.old
            → CountsRun messages acts self.new }
    {
        let passed = match role {
            Role::Initiator => self.initiator.passed,
            Role::Responder => self.responder.passed,
        };
        let message = more(passed);
        self.refusals.push(Refusal {
            role,
            message,
            token,
            cause,
        })?;
        Ok(())
    }

    /// Notes that both parties went over to datagrams.
    pub fn go_over(&mut self)
        ensures counted { (messages : ℕ) (acts : List (Role × Act)) → CountsRun messages acts self.old
            → CountsRun messages acts self.new }
    {
        self.has_datagrams = true;
        self.end(true, true);
    }

    /// Notes for which party the session is open after the run.
    pub fn end(&mut self, initiator: bool, responder: bool)
        ensures counted { (messages : ℕ) (acts : List (Role × Act)) → CountsRun messages acts self.old
            → CountsRun messages acts self.new }
    {
        self.initiator.is_open = initiator;
        self.responder.is_open = responder;
    }
}

const NONE: PartyCounts = PartyCounts {
    passed: 0,
    wrote: 0,
    accepted: 0,
    sent: 0,
    received: 0,
    dropped: 0,
    sealed: 0,
    opened: 0,
    rejected: 0,
    is_open: false,
};

impl PartyCounts {
    // After one act more, of a handshake of so many messages.
    #[rattlefmt::skip]
    fn after(self, act: Act, messages: usize) -> PartyCounts
        ensures counted { (acts : List Act) → length acts < 2 ^ 64 - 1
            → CountsParty messages acts self → CountsParty messages (acts ++ act ∷ []) result }
    {
        match (act, self.passed < messages) {
            (Act::Wrote, true) => PartyCounts { passed: more(self.passed), wrote: more(self.wrote), ..self },
            (Act::Wrote, false) => PartyCounts { sent: more(self.sent), ..self },
            (Act::Accepted, true) => PartyCounts { passed: more(self.passed), accepted: more(self.accepted), ..self },
            (Act::Accepted, false) => PartyCounts { received: more(self.received), ..self },
            (Act::Dropped, _) => PartyCounts { dropped: more(self.dropped), ..self },
            (Act::Sealed, _) => PartyCounts { sealed: more(self.sealed), ..self },
            (Act::Opened, _) => PartyCounts { opened: more(self.opened), ..self },
            (Act::Rejected, _) => PartyCounts { rejected: more(self.rejected), ..self },
        }
    }
}

fn more(count: usize) -> usize
    ensures { count < 2 ^ 64 - 1 → result ≡ count + 1 }
{
    count.saturating_add(1)
}
