//! One party seals and opens datagrams.

ghost use Rattle.std.specs.Prelude.{◌≡◌, ℕ, List, length, IfOk, slice_get};
ghost use Rattle.noise_session.specs.Datagrams.{DatagramsMatch};
ghost use Rattle.noise_duel.specs.DatagramSides.{DatagramSide, sealed_datagrams};
ghost use Rattle.noise_names.specs.Lists.{bytes_of};
ghost use Rattle.noise_duel.specs.OneDatagram.{HasFound, HasOpened, HasSealed};

use crate::datagram_report::DatagramEntry;
use noise_session::Datagrams;
use noise_session::limits::{DATAGRAM_OVERHEAD, PAYLOAD_MAX};
use std::alloc::{AllocError, Global};

/// Seals a payload, keeps the datagram after those that were sealed before, and reports it.
pub(crate) fn seal(
    alloc: Global,
    datagrams: &mut Datagrams,
    payload: &[u8],
    sealed: &mut Vec<Vec<u8>>,
) -> Result<DatagramEntry, AllocError>
    ensures { (s : DatagramSide) → DatagramsMatch datagrams.old s.state → bytes_of sealed.old.items ≡ sealed_datagrams s
        → IfOk result (λ entry. HasSealed s payload.now entry datagrams.new sealed.new.items) }
{
    let room = if payload.len() > PAYLOAD_MAX {
        0
    } else {
        payload.len() + DATAGRAM_OVERHEAD
    };
    let mut datagram = vec![in alloc; 0u8; room]?;
    match datagrams.seal(payload, datagram.as_mut_slice()) {
        Ok(len) => {
            let number = sealed.len();
            datagram.truncate(len);
            let reported = Vec::from_slice(alloc, datagram.as_slice())?;
            sealed.push(datagram)?;
            Ok(DatagramEntry::Sealed(number, reported))
        }
        Err(fault) => Ok(DatagramEntry::SealFault(fault)),
    }
}

/// Opens a copy of these bytes as one datagram, and returns what came of it.
pub(crate) fn open(
    alloc: Global,
    datagrams: &mut Datagrams,
    bytes: &[u8],
) -> Result<DatagramEntry, AllocError>
    ensures { (s : DatagramSide) → DatagramsMatch datagrams.old s.state
        → IfOk result (λ entry. HasOpened s bytes.now entry datagrams.new) }
{
    let mut datagram = Vec::from_slice(alloc, bytes)?;
    match datagrams.open(datagram.as_mut_slice()) {
        Ok(payload) => Ok(DatagramEntry::Payload(Vec::from_slice(alloc, payload)?)),
        Err(fault) => Ok(DatagramEntry::Rejected(fault)),
    }
}

/// Opens a copy of the datagram of this number, if there is one, and returns what came of it.
pub(crate) fn open_numbered(
    alloc: Global,
    datagrams: &mut Datagrams,
    sealed: &[Vec<u8>],
    number: usize,
) -> Result<DatagramEntry, AllocError>
    ensures { (s : DatagramSide) → DatagramsMatch datagrams.old s.state
        → IfOk result (λ entry. HasFound s number (slice_get (bytes_of sealed.now) number) entry datagrams.new) }
{
    match sealed.get(number) {
        Some(datagram) => open(alloc, datagrams, datagram.as_slice()),
        None => Ok(DatagramEntry::Missing(number)),
    }
}
