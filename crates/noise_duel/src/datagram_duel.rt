//! The datagrams of two parties, and what events make of them.

ghost use Rattle.std.specs.Prelude.{◌≡◌, IfOk};
ghost use Rattle.noise_session.specs.Datagrams.{DatagramState};
ghost use Rattle.noise_duel.specs.DatagramAgreement.{DatagramsAgree, HaveOneBeginning};
ghost use Rattle.noise_events.specs.DatagramEvents.{Open, Raw, Seal, datagram_event_of, datagram_events_of};
ghost use Rattle.noise_duel.specs.DatagramReports.{DatagramReports, DatagramDuelMatches};
ghost use Rattle.noise_duel.specs.DatagramSides.{DatagramSides, datagram_sides};
ghost use Rattle.noise_duel.specs.OneDatagram.{DatagramHappened, SealedMatch};

use crate::datagram_party::{open, open_numbered, seal};
use crate::datagram_report::{DatagramEntry, DatagramReport};
use crate::laws::datagrams_agree;
use noise_events::DatagramEvent;
use noise_names::Role;
use noise_session::Datagrams;
use std::alloc::{AllocError, Global};
use std::marker::Model;

/// The datagrams of two parties, and nothing between them: what the one seals comes to the other only by an event.
#[derive(Drop)]
pub struct DatagramDuel {
    initiator: Datagrams,
    responder: Datagrams,
}

impl Model for DatagramDuel {
    ghost use Rattle.noise_duel.specs.DatagramReports.{DatagramDuelValue};

    ghost Value = { DatagramDuelValue };

    ghost view = { λ d. record { initiator = d.initiator; responder = d.responder } };
}

// The datagrams that each role sealed in a run, in order.
#[derive(Drop)]
struct SealedDatagrams {
    initiator: Vec<Vec<u8>>,
    responder: Vec<Vec<u8>>,
}

impl DatagramDuel {
    // Those of the initiator and of the responder.
    pub(crate) fn new(initiator: Datagrams, responder: Datagrams) -> DatagramDuel
        ensures { result ≡ record { initiator = initiator; responder = responder } }
    {
        DatagramDuel {
            initiator,
            responder,
        }
    }

    /// The initiator's datagrams.
    pub fn initiator(&self) -> &Datagrams
        ensures { result.now ≡ self.now.initiator }
    {
        &self.initiator
    }

    /// The responder's datagrams.
    pub fn responder(&self) -> &Datagrams
        ensures { result.now ≡ self.now.responder }
    {
        &self.responder
    }

    /// Runs events, one after another, and returns what came of each; datagrams are counted anew. Nothing stops the run
    /// but lack of memory, at which the datagrams of both are gone. Beside the report it takes memory for a copy of
    /// each datagram that is sealed, and of the one that is opened.
    ///
    /// Whatever the events are: between the parties of one handshake that have sealed and opened nothing no nonce is
    /// accepted twice, and the datagram that is accepted at a nonce is the one of that number, or it is forged.
    pub fn run(
        mut self,
        alloc: Global,
        events: &[DatagramEvent],
    ) -> Result<(DatagramDuel, DatagramReport), AllocError>
        ensures reports { (v w : DatagramState) → DatagramDuelMatches self (datagram_sides v w)
            → IfOk result (λ r. DatagramReports (datagram_sides v w) (datagram_events_of events.now) r.0 r.1) }
        ensures agrees { (v w : DatagramState) → DatagramDuelMatches self (datagram_sides v w) → HaveOneBeginning v w
            → IfOk result (λ r. (left : DatagramReports (datagram_sides v w) (datagram_events_of events.now) r.0 r.1)
            × DatagramsAgree v.state left.last) }
    {
        let mut report = DatagramReport::new(alloc);
        let mut sealed = SealedDatagrams {
            initiator: Vec::new(alloc),
            responder: Vec::new(alloc),
        };
        for event in events {
            let reported = self.apply(alloc, event, &mut sealed)?;
            report.entries.push(reported)?;
        }
        datagrams_agree();
        Ok((self, report))
    }

    // What comes of one event.
    fn apply(
        &mut self,
        alloc: Global,
        event: &DatagramEvent,
        sealed: &mut SealedDatagrams,
    ) -> Result<(Role, DatagramEntry), AllocError>
        ensures { (d : DatagramSides) → DatagramDuelMatches self.old d → SealedMatch sealed.old d
            → IfOk result (λ reported. DatagramHappened d (datagram_event_of event.now) reported self.new sealed.new) }
    {
        match event {
            DatagramEvent::Seal(role, payload) => {
                let entry = self.seal(alloc, *role, payload.as_slice(), sealed)?;
                Ok((*role, entry))
            }
            DatagramEvent::Open(role, number) => {
                let entry = self.open(alloc, *role, *number, sealed)?;
                Ok((*role, entry))
            }
            DatagramEvent::Raw(role, bytes) => {
                let entry = self.put_in(alloc, *role, bytes.as_slice())?;
                Ok((*role, entry))
            }
        }
    }

    // This role seals a payload.
    fn seal(
        &mut self,
        alloc: Global,
        role: Role,
        payload: &[u8],
        sealed: &mut SealedDatagrams,
    ) -> Result<DatagramEntry, AllocError>
        ensures { (d : DatagramSides) → DatagramDuelMatches self.old d → SealedMatch sealed.old d
            → IfOk result (λ entry. DatagramHappened d (Seal role payload.now) (role, entry) self.new sealed.new) }
    {
        match role {
            Role::Initiator => seal(alloc, &mut self.initiator, payload, &mut sealed.initiator),
            Role::Responder => seal(alloc, &mut self.responder, payload, &mut sealed.responder),
        }
    }

    // The datagram of this number that the other role sealed comes to this role.
    fn open(
        &mut self,
        alloc: Global,
        role: Role,
        number: usize,
        sealed: &SealedDatagrams,
    ) -> Result<DatagramEntry, AllocError>
        ensures { (d : DatagramSides) → DatagramDuelMatches self.old d → SealedMatch sealed.now d
            → IfOk result (λ entry. DatagramHappened d (Open role number) (role, entry) self.new sealed.now) }
    {
        match role {
            Role::Initiator => {
                let theirs = sealed.responder.as_slice();
                open_numbered(alloc, &mut self.initiator, theirs, number)
            }
            Role::Responder => {
                let theirs = sealed.initiator.as_slice();
                open_numbered(alloc, &mut self.responder, theirs, number)
            }
        }
    }

    // Any bytes come to this role as one datagram.
    fn put_in(
        &mut self,
        alloc: Global,
        role: Role,
        bytes: &[u8],
    ) -> Result<DatagramEntry, AllocError>
        ensures { (d : DatagramSides) (sealed : SealedDatagrams) → DatagramDuelMatches self.old d
            → SealedMatch sealed d
            → IfOk result (λ entry. DatagramHappened d (Raw role bytes.now) (role, entry) self.new sealed) }
    {
        match role {
            Role::Initiator => open(alloc, &mut self.initiator, bytes),
            Role::Responder => open(alloc, &mut self.responder, bytes),
        }
    }
}
