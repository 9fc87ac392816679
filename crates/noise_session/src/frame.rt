//! The frame that is coming.

ghost use Rattle.std.specs.Prelude.{◌≡◌, ◌≢◌, ◌≤◌, ◌<◌, ◌+◌, ◌-◌, ◌++◌, ◌↔◌, ℕ, List, [], length, take, drop, IfOk, IfNone, IfSome, vec_capacity};
ghost use Rattle.noise_session.specs.Frames.{IsPartial, IsWhole, frame_length};
ghost use Rattle.byteorder.specs.Endian.{big_bytes};
ghost use Rattle.std.specs.Io.KnownBytes.{Consumes, IsAtEnd};
ghost use Rattle.noise_session.specs.Counting.{inner_of, failures_of};
ghost use Rattle.noise_session.specs.inner.Filling.{FillingLeaves, after_filling};
ghost use Rattle.noise_session.specs.declared.counted.Filling.TheVariants.{Filled, End};

use crate::Counted;
use crate::counted::{Filling, fill_from};
use crate::limits::FRAME_MAX;
use byteorder::{BigEndian, ByteOrder};
use std::alloc::{AllocError, Global};
use std::io::Read;

// Zeros for a whole frame, in memory that holds just them. `vec!` promises to take at least as much: where it took
// more, they are put one by one.
pub(crate) fn zeros(alloc: Global) -> Result<Vec<u8>, AllocError>
    ensures { IfOk result (λ bytes. (length bytes.items ≡ 65537) × (vec_capacity bytes ≡ 65537)) }
{
    let bytes = vec![in alloc; 0u8; FRAME_MAX]?;
    if bytes.capacity() == FRAME_MAX {
        Ok(bytes)
    } else {
        zeros_one_by_one(alloc)
    }
}

// Such zeros, put one by one into memory that is taken for just them.
fn zeros_one_by_one(alloc: Global) -> Result<Vec<u8>, AllocError>
    ensures { IfOk result (λ bytes. (length bytes.items ≡ 65537) × (vec_capacity bytes ≡ 65537)) }
{
    let mut bytes = Vec::with_capacity(alloc, FRAME_MAX)?;
    for at in 0..FRAME_MAX {
        bytes.insert(at, 0u8)?;
    }
    Ok(bytes)
}

// What has come of the next frame, in a buffer for a whole one, which never grows.
#[derive(Drop)]
pub(crate) struct Frame {
    pub(crate) buffer: Vec<u8>,
    partial: usize,
    whole: usize, // of the frame, as far as its bytes show
    ghost room: { length buffer.items ≡ 65537 },
    ghost fixed: { vec_capacity buffer ≡ 65537 },
    ghost most: { whole ≤ 65537 },
    ghost within: { partial ≤ whole },
    ghost known: { whole ≡ frame_length (take partial buffer.items) },
    ghost spelled: { 2 ≤ partial → take 2 buffer.items ≡ big_bytes 2 (whole - 2) },
}

impl Frame {
    ghost use Rattle.noise_session.specs.inner.Partial.{partial_of};

    pub(crate) fn new(alloc: Global) -> Result<Frame, AllocError>
        ensures { IfOk result (λ frame. partial_of frame ≡ []) }
    {
        let buffer = zeros(alloc)?;
        Ok(Frame {
            buffer,
            partial: 0,
            whole: 2,
        })
    }

    // Forgets what has come, and returns how many bytes it was. They stay in the buffer.
    pub(crate) fn clear(&mut self) -> usize
        ensures count { result ≡ self.old.partial }
        ensures empty { partial_of self.new ≡ [] }
        ensures unchanged { self.new.buffer ≡ self.old.buffer }
    {
        let partial = self.partial;
        self.partial = 0;
        self.whole = 2;
        partial
    }

    // How many bytes have come.
    pub(crate) fn held(&self) -> usize
        requires partial { IsPartial (partial_of self.now) }
        ensures count { result ≡ length (partial_of self.now) }
        ensures most { result ≤ 65536 }
    {
        self.partial
    }

    // The message of the frame, with what the buffer holds after it.
    pub(crate) fn message(&self) -> &[u8]
        ensures { result.now ≡ drop 2 self.now.buffer.items }
    {
        &self.buffer[2..]
    }

    // Takes bytes up to the end of the frame's length, or of the frame once that is there, and returns how many.
    fn accept(&mut self, piece: &[u8]) -> usize
        ensures count { result ≤ length piece.now }
        ensures taken { partial_of self.new ≡ partial_of self.old ++ take result piece.now }
        ensures all { length (partial_of self.new) < frame_length (partial_of self.old) → result ≡ length piece.now }
    {
        let count = piece.len().min(self.whole - self.partial);
        let end = self.partial + count;
        put(&mut self.buffer, self.partial, &piece[..count]);
        self.whole = whole_after(&self.buffer, self.whole, end);
        self.partial = end;
        count
    }

    // Reads the missing bytes of the frame's length, or of the frame once that is there.
    fn read_up<R: Read>(&mut self, from: &mut Counted<R>) -> Filling
        ensures bytes { (piece : List ℕ)
            × Consumes (R.remaining (inner_of from.old)) (R.remaining (inner_of from.new)) piece
            × (partial_of self.new ≡ partial_of self.old ++ piece) }
        ensures filled { (result ≡ Filled) ↔ (length (partial_of self.new) ≡ frame_length (partial_of self.old)) }
        ensures within { length (partial_of self.new) ≤ frame_length (partial_of self.old) }
        ensures end { result ≡ End → IsAtEnd (R.remaining (inner_of from.new)) }
        ensures failures { failures_of from.new ≡ after_filling (failures_of from.old) result }
    {
        let (count, filling) = read_into(from, &mut self.buffer, self.partial, self.whole);
        let end = self.partial + count;
        self.whole = whole_after(&self.buffer, self.whole, end);
        self.partial = end;
        filling
    }

    // Reads the missing bytes of the frame, those of its length first.
    pub(crate) fn fill_from<R: Read>(&mut self, from: &mut Counted<R>) -> Filling
        ensures bytes { (piece : List ℕ)
            × Consumes (R.remaining (inner_of from.old)) (R.remaining (inner_of from.new)) piece
            × (partial_of self.new ≡ partial_of self.old ++ piece) }
        ensures leaves { FillingLeaves result (partial_of self.new) }
        ensures end { result ≡ End → IsAtEnd (R.remaining (inner_of from.new)) }
        ensures failures { failures_of from.new ≡ after_filling (failures_of from.old) result }
    {
        match self.read_up(from) {
            Filling::Filled => self.read_up(from),
            filling => filling,
        }
    }

    // Takes bytes of a piece up to the frame's end, and returns how many; None where the frame isn't whole with all of
    // them.
    pub(crate) fn fill(&mut self, piece: &[u8]) -> Option<usize>
        ensures part { IfNone result ((partial_of self.new ≡ partial_of self.old ++ piece.now)
            × IsPartial (partial_of self.new)) }
        ensures whole { IfSome result
            (λ n. (n ≤ length piece.now) × (partial_of self.new ≡ partial_of self.old ++ take n piece.now)
            × IsWhole (partial_of self.new)) }
    {
        let first = self.accept(piece);
        let count = first + self.accept(&piece[first..]);
        if self.partial < self.whole {
            return None;
        }
        Some(count)
    }
}

// Reads bytes into a buffer, from one place to another, and returns how many.
fn read_into<R: Read>(
    from: &mut Counted<R>,
    buffer: &mut Vec<u8>,
    start: usize,
    end: usize,
) -> (usize, Filling)
    requires order { start ≤ end }
    requires room { end ≤ length buffer.old.items }
    ensures room { length buffer.new.items ≡ length buffer.old.items }
    ensures fixed { vec_capacity buffer.new ≡ vec_capacity buffer.old }
    ensures within { result.0 ≤ end - start }
    ensures filled { (result.1 ≡ Filled) ↔ (result.0 ≡ end - start) }
    ensures bytes { (piece : List ℕ)
        × Consumes (R.remaining (inner_of from.old)) (R.remaining (inner_of from.new)) piece × (length piece ≡ result.0)
        × (take (start + result.0) buffer.new.items ≡ take start buffer.old.items ++ piece) }
    ensures end { result.1 ≡ End → IsAtEnd (R.remaining (inner_of from.new)) }
    ensures failures { failures_of from.new ≡ after_filling (failures_of from.old) result.1 }
{
    fill_from(from, &mut buffer[start..end])
}

// Writes bytes into a buffer, from a place on.
fn put(buffer: &mut Vec<u8>, from: usize, bytes: &[u8])
    requires within { from + length bytes.now ≤ length buffer.old.items }
    ensures room { length buffer.new.items ≡ length buffer.old.items }
    ensures fixed { vec_capacity buffer.new ≡ vec_capacity buffer.old }
    ensures front { take (from + length bytes.now) buffer.new.items ≡ take from buffer.old.items ++ bytes.now }
{
    buffer[from..from + bytes.len()].copy_from_slice(bytes);
}

// How long a frame is of which so many bytes have come: what was known, but where its length is whole just now.
fn whole_after(buffer: &[u8], known: usize, end: usize) -> usize
    requires long { 2 ≤ length buffer.now }
    ensures read { end ≡ 2 → (result ≡ frame_length (take 2 buffer.now)) × (result ≤ 65537)
        × (take 2 buffer.now ≡ big_bytes 2 (result - 2)) }
    ensures unchanged { end ≢ 2 → result ≡ known }
{
    if end == 2 {
        2 + usize::from(BigEndian::read_u16(buffer))
    } else {
        known
    }
}
