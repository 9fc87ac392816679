//! Two parties of a session, and what events make of them.

ghost use Rattle.std.specs.Prelude.{◌≡◌, ◌↔◌, IsOk, IfOk, IfErr, OnOk, slice_get, true};
ghost use Rattle.noise_names.specs.declared.token.Role.TheVariants.{Initiator, Responder};
ghost use Rattle.noise_session.specs.Ends.{EndState, EndMatches, progress};
ghost use Rattle.noise_session.specs.Progress.{role_of};
ghost use Rattle.noise_session.specs.EndDatagrams.{is_datagram_ready};
ghost use Rattle.noise_events.specs.Events.{event_of, events_of, Deliver, Raw, Say};
ghost use Rattle.noise_duel.specs.Acts.{roles_and_payloads};
ghost use Rattle.noise_duel.specs.Conversation.{say_events};
ghost use Rattle.noise_duel.specs.DatagramReports.{DatagramDuelMatches, datagram_sides_of};
ghost use Rattle.noise_names.specs.Lists.{bytes_of};
ghost use Rattle.noise_duel.specs.DuelValue.{DuelMatches, both_sides};
ghost use Rattle.noise_duel.specs.OneEvent.{Applies, HasDelivered, RoleWrites};
ghost use Rattle.noise_duel.specs.Reports.{AgreesInRun, AllComeThrough, ReportsRun};
ghost use Rattle.noise_duel.specs.Sides.{Side};

use crate::datagram_duel::DatagramDuel;
use crate::delivery::receive;
use crate::entry::Entry;
use crate::laws::{ends_agree, ends_match, messages_come_through};
use crate::report::Report;
use crate::writer::write;
use noise_events::{Cuts, Event};
use noise_handshake::Keys;
use noise_names::Role;
use noise_session::laws::end_is_reported;
use noise_session::{End, Window};
use std::alloc::{AllocError, Global};
use std::marker::Model;

/// Two parties of one session, and nothing between them: what the one writes comes to the other only by an event.
#[derive(Drop)]
pub struct Duel<A: Keys, B: Keys> {
    initiator: End<A>,
    responder: End<B>,
}

impl<A: Keys, B: Keys> Model for Duel<A, B> {
    ghost use Rattle.noise_duel.specs.DuelValue.{DuelValue};

    ghost Value = { DuelValue A B };

    ghost view = { λ d. record { initiator = d.initiator; responder = d.responder } };
}

impl<A: Keys, B: Keys> Duel<A, B> {
    /// These two parties: the first is the initiator's, the second the responder's.
    pub fn new(initiator: End<A>, responder: End<B>) -> Duel<A, B>
        requires first { role_of (progress initiator) ≡ Initiator }
        requires second { role_of (progress responder) ≡ Responder }
        ensures value { result ≡ record { initiator = initiator; responder = responder } }
    {
        Duel {
            initiator,
            responder,
        }
    }

    /// The initiator's end.
    pub fn initiator(&self) -> &End<A>
        ensures { result.now ≡ self.now.initiator }
    {
        &self.initiator
    }

    /// The responder's end.
    pub fn responder(&self) -> &End<B>
        ensures { result.now ≡ self.now.responder }
    {
        &self.responder
    }

    /// Runs events, one after another, and returns what came of each; frames are counted anew. Nothing stops the run
    /// but lack of memory, at which the parties are gone.
    ///
    /// Whatever the events are: where two new parties of one pattern have opened with one hash, they have had the same
    /// conversation (Noise, 11.2), or two texts that they hashed collide.
    pub fn run(
        mut self,
        alloc: Global,
        events: &[Event],
    ) -> Result<(Duel<A, B>, Report), AllocError>
        ensures reports { ReportsRun A.pairs B.pairs
            (events_of events.now) self result }
        ensures agrees { AgreesInRun A.pairs B.pairs
            (events_of events.now) self result }
    {
        let mut report = Report::new(alloc);
        for event in events {
            self.apply(alloc, event, &mut report)?;
        }
        ends_match();
        ends_agree();
        Ok((self, report))
    }

    /// Runs messages in turn: each is a payload that its role writes, whose frame comes to the other party at once, in
    /// these pieces. Where a line isn't written, or isn't accepted, its entry says so, and the next one follows.
    ///
    /// Between two new parties with their parts of one key material, lines in turn that fit all come through.
    pub fn converse(
        mut self,
        alloc: Global,
        lines: &[(Role, Vec<u8>, Cuts)],
    ) -> Result<(Duel<A, B>, Report), AllocError>
        ensures reports { ReportsRun A.pairs B.pairs
            (say_events (roles_and_payloads lines.now)) self result }
        ensures comes_through { AllComeThrough A.pairs B.pairs
            (roles_and_payloads lines.now) self result }
    {
        let mut report = Report::new(alloc);
        for (role, payload, cuts) in lines {
            let written = self.write(alloc, *role, payload.as_slice(), &mut report)?;
            let Some(number) = written else {
                continue;
            };
            self.deliver(alloc, role.other(), number, cuts, &mut report)?;
        }
        ends_match();
        messages_come_through();
        end_is_reported::<A>();
        end_is_reported::<B>();
        Ok((self, report))
    }

    /// The datagrams of both parties, with this window (Noise, 11.4), if both parties are ready for them
    /// (`End::datagram_ready`); else the two parties as they were.
    pub fn into_datagrams(self, window: Window) -> Result<DatagramDuel, Duel<A, B>>
        ensures when { IsOk result
            ↔ ((is_datagram_ready self.initiator ≡ true) × (is_datagram_ready self.responder ≡ true)) }
        ensures matches { (v w : EndState)
            → DuelMatches A.pairs B.pairs self (both_sides v w)
            → IfOk result (λ duel. DatagramDuelMatches duel (datagram_sides_of v w window)) }
        ensures back { IfErr result (λ duel. duel ≡ self) }
    {
        if !(self.initiator.datagram_ready() && self.responder.datagram_ready()) {
            return Err(self);
        }
        let initiator = self.initiator.into_datagrams(window);
        let responder = self.responder.into_datagrams(window);
        Ok(DatagramDuel::new(initiator, responder))
    }

    /// Runs one event, and adds what comes of it to the report of the events before it: frames that are written, and
    /// entries. Where memory runs out, part of both may be there.
    pub fn apply(
        &mut self,
        alloc: Global,
        event: &Event,
        report: &mut Report,
    ) -> Result<(), AllocError>
        ensures { Applies A.pairs B.pairs
            (event_of event.now) self.old self.new report.old report.new result }
    {
        match event {
            Event::Write(role, payload) => {
                self.write(alloc, *role, payload.as_slice(), report)?;
                Ok(())
            }
            Event::Say(role, payload, cuts) => {
                match self.write(alloc, *role, payload.as_slice(), report)? {
                    Some(number) => self.deliver(alloc, role.other(), number, cuts, report),
                    None => Ok(()),
                }
            }
            Event::Deliver(role, number, cuts) => self.deliver(alloc, *role, *number, cuts, report),
            Event::Raw(role, bytes) => self.hand_over(alloc, *role, bytes.as_slice(), report),
        }
    }

    // This role writes a payload; the result is its frame's number.
    fn write(
        &mut self,
        alloc: Global,
        role: Role,
        payload: &[u8],
        report: &mut Report,
    ) -> Result<Option<usize>, AllocError>
        ensures { RoleWrites A.pairs B.pairs
            role payload.now self.old self.new report.old report.new result }
    {
        let reported = match role {
            Role::Initiator => write(alloc, &mut self.initiator, payload, &mut report.initiator)?,
            Role::Responder => write(alloc, &mut self.responder, payload, &mut report.responder)?,
        };
        match reported {
            Ok(number) => {
                report.entries.push((role, Entry::Wrote(number)))?;
                Ok(Some(number))
            }
            Err(fault) => {
                report.entries.push((role, Entry::WriteFault(fault)))?;
                Ok(None)
            }
        }
    }

    // The frame of this number that the other role wrote comes to this role.
    fn deliver(
        &mut self,
        alloc: Global,
        role: Role,
        number: usize,
        cuts: &Cuts,
        report: &mut Report,
    ) -> Result<(), AllocError>
        ensures { Applies A.pairs B.pairs
            (Deliver role number) self.old self.new report.old report.new result }
    {
        match role {
            Role::Initiator => {
                take_frame(
                    alloc,
                    role,
                    &mut self.initiator,
                    report.responder.as_slice(),
                    number,
                    cuts,
                    &mut report.entries,
                )
            }
            Role::Responder => {
                take_frame(
                    alloc,
                    role,
                    &mut self.responder,
                    report.initiator.as_slice(),
                    number,
                    cuts,
                    &mut report.entries,
                )
            }
        }
    }

    // Any bytes come to this role, in one piece.
    fn hand_over(
        &mut self,
        alloc: Global,
        role: Role,
        bytes: &[u8],
        report: &mut Report,
    ) -> Result<(), AllocError>
        ensures { Applies A.pairs B.pairs
            (Raw role bytes.now) self.old self.new report.old report.new result }
    {
        let whole = Cuts::whole();
        match role {
            Role::Initiator => receive(
                alloc,
                role,
                &mut self.initiator,
                bytes,
                &whole,
                &mut report.entries,
            ),
            Role::Responder => receive(
                alloc,
                role,
                &mut self.responder,
                bytes,
                &whole,
                &mut report.entries,
            ),
        }
    }
}

// The frame of this number comes to a party, if there is one.
fn take_frame<K: Keys>(
    alloc: Global,
    role: Role,
    end: &mut End<K>,
    frames: &[Vec<u8>],
    number: usize,
    cuts: &Cuts,
    entries: &mut Vec<(Role, Entry)>,
) -> Result<(), AllocError>
    ensures { (s : Side) → EndMatches K.pairs end.old s.state
        → OnOk result (HasDelivered K.pairs s role number
        (slice_get (bytes_of frames.now) number) end.new entries.old.items entries.new.items) }
{
    match frames.get(number) {
        Some(frame) => receive(alloc, role, end, frame.as_slice(), cuts, entries),
        None => {
            entries.push((role, Entry::Missing(number)))?;
            Ok(())
        }
    }
}
