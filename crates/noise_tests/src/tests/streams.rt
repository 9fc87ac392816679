//! Readers and writers that fail or end at each place of a frame, an interruption among the failures.

use super::support::{end, first_frame, opened};
use noise_handshake::XorKeys;
use noise_names::Role;
use noise_session::{Counted, End, ReceiveFault, SendFault, Stage, Step, Transport};
use std::alloc::Global;
use std::io::{Error, ErrorKind, Read, Result, Write};
use std::process::Abort;

// Gives a frame, a byte a read. After so many bytes it fails once and then goes on, or it has come to its end.
#[derive(Drop)]
struct Reader {
    frame: [u8; 36],
    at: usize,
    left: usize,
    failure: Option<ErrorKind>,
}

impl Read for Reader {
    fn read(&mut self, buf: &mut [u8]) -> Result<usize> {
        if self.left == 0
            && let Some(kind) = self.failure.take()
        {
            self.left = 36;
            return Err(Error::from(kind));
        }
        if self.left == 0 || self.at >= 36 || buf.is_empty() {
            return Ok(0);
        }
        buf[0] = self.frame[self.at];
        self.at += 1;
        self.left -= 1;
        Ok(1)
    }
}

// Takes a byte a write. After so many bytes it fails once and then goes on, or it takes none. A flush fails in place of
// that write.
#[derive(Drop)]
struct Writer {
    taken: [u8; 36],
    at: usize,
    left: usize,
    failure: Option<ErrorKind>,
}

impl Write for Writer {
    fn write(&mut self, buf: &[u8]) -> Result<usize> {
        if self.left == 0
            && let Some(kind) = self.failure.take()
        {
            self.left = 36;
            return Err(Error::from(kind));
        }
        if self.left == 0 || self.at >= 36 || buf.is_empty() {
            return Ok(0);
        }
        self.taken[self.at] = buf[0];
        self.at += 1;
        self.left -= 1;
        Ok(1)
    }

    fn flush(&mut self) -> Result<()> {
        match self.failure.take() {
            Some(kind) => Err(Error::from(kind)),
            None => Ok(()),
        }
    }
}

fn failing_reader(left: usize, failure: Option<ErrorKind>) -> Counted<Reader> {
    let frame = first_frame();
    Counted::new(Reader {
        frame,
        at: 0,
        left,
        failure,
    })
}

fn failing_writer(left: usize, failure: Option<ErrorKind>) -> Counted<Writer> {
    Counted::new(Writer {
        taken: [0; 36],
        at: 0,
        left,
        failure,
    })
}

// A read that fails so at this place leaves the bytes before it, and the next call goes on after them.
fn goes_on(rt: &impl Abort, alloc: Global, place: usize, kind: ErrorKind) {
    let mut responder = end(rt, alloc, Role::Responder, &[]);
    let mut from = failing_reader(place, Some(kind));
    let failed = responder.receive(&mut from) == Err(ReceiveFault::Input);
    assert!(rt; failed);
    assert!(rt; responder.held() == place);
    assert!(rt; from.failures() == 1);
    let whole = responder.receive(&mut from) == Ok(Some(Step::Payload(b"hi")));
    assert!(rt; whole);
    assert!(rt; from.failures() == 1);
}

#[test]
fn goes_on_after_a_failed_read(rt: HostRuntime) {
    for place in 0..36 {
        goes_on(&rt, rt.alloc(), place, ErrorKind::Other);
        goes_on(&rt, rt.alloc(), place, ErrorKind::Interrupted);
    }
}

#[test]
fn reports_where_the_input_ends(rt: HostRuntime) {
    for place in 0..36 {
        let mut responder = end(&rt, rt.alloc(), Role::Responder, &[]);
        let mut from = failing_reader(place, None);
        let reported = match place {
            0 => Ok(None),
            _ => Err(ReceiveFault::CutShort),
        };
        let ended = responder.receive(&mut from) == reported;
        assert!(rt; ended, "at {place}");
        assert!(rt; responder.held() == place);
        assert!(rt; from.failures() == 0);
    }
}

// A write that fails at this place ends the session, and isn't tried again: the writer would take the rest.
fn ends_at(rt: &impl Abort, alloc: Global, place: usize, failure: Option<ErrorKind>) {
    let mut initiator = end(rt, alloc, Role::Initiator, &[]);
    let mut out = failing_writer(place, failure);
    let reported = initiator.write_to(b"hi", &mut out);
    assert!(rt; reported == Err(SendFault::Output { written: place }));
    assert!(rt; initiator.stage() == Stage::Ended);
    assert!(rt; out.failures() == 1);
    let out = out.into_inner();
    assert!(rt; out.at == place);
    assert!(rt; place <= 36 && out.taken[..place] == first_frame()[..place]);
}

#[test]
fn ends_where_a_write_fails(rt: HostRuntime) {
    for place in 0..36 {
        ends_at(&rt, rt.alloc(), place, Some(ErrorKind::Other));
        ends_at(&rt, rt.alloc(), place, Some(ErrorKind::Interrupted));
        ends_at(&rt, rt.alloc(), place, None);
    }
}

#[test]
fn writes_a_byte_a_call(rt: HostRuntime) {
    let mut initiator = end(&rt, rt.alloc(), Role::Initiator, &[]);
    let mut out = failing_writer(36, Some(ErrorKind::Other));
    assert!(rt; initiator.write_to(b"hi", &mut out) == Ok(36));
    assert!(rt; out.failures() == 0);
    assert!(rt; out.into_inner().taken == first_frame());
}

#[test]
fn flush_is_passed_on_and_not_counted(rt: HostRuntime) {
    let mut out = failing_writer(0, Some(ErrorKind::Other));
    assert!(rt; out.flush().is_err());
    assert!(rt; out.flush().is_ok());
    assert!(rt; out.failures() == 0);
}

// It passes whichever allocation fails: see `rt try --test --fail-alloc N`.
#[test]
fn an_end_or_no_memory(rt: HostRuntime) {
    let mut transport = Transport::new(opened(&rt).0, 0);
    assert!(rt; transport.interval() == 0);
    transport.set_nonces(7, 9);
    let made: std::result::Result<End<XorKeys>, _> = End::from_transport(rt.alloc(), transport);
    if let Ok(end) = made {
        let (send, receive) = (7, 9);
        assert!(rt; end.stage() == Stage::Transport { send, receive });
    }
}
