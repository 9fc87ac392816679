//! Which datagrams were accepted before: a ring of bits over their nonces (Noise, 11.4).

ghost use Rattle.std.specs.Prelude.{◌≡◌, ◌≤◌, ◌<◌, ◌+◌, ◌/◌, ◌%◌, ◌*◌, ◌==◌, ℕ, List, [], ◌∷◌, length, drop, min, slice_index, false, true, IfSome, is_some};
ghost use Rattle.std.specs.List.{list_all};
ghost use Rattle.noise_events.specs.Windows.{width_of};
ghost use Rattle.noise_session.specs.Transport.{last_nonce};
ghost use Rattle.noise_session.specs.Windows.{bitmap_len, is_below, is_marked, is_old, ring_fault, Recalls, ends_at_greatest, begun_words, is_ring};

use crate::DatagramFault;
use crate::limits::LAST_NONCE;
use noise_events::Window;

const WORD_BITS: u64 = 64;

// The words of the widest window: a word more than the width takes.
const MOST_WORDS: usize = 17;

// The accepted nonces of a window: the greatest, 0 where there is none, and a bit for each of the others.
//
// A word has the bits of a block of 64 nonces, from a multiple of 64 on. There is a word more than the width takes: so
// the blocks that the window touches have a word each, and a word is cleared as a whole when its turn for a block
// comes.
#[derive(Drop)]
pub(crate) struct Ring {
    window: Window,
    greatest: u64,
    words: [u64; MOST_WORDS],
}

impl Ring {
    // That of no nonces.
    pub(crate) fn new(window: Window) -> Ring
        ensures window { result.window ≡ window }
        ensures none { Recalls result [] }
        ensures ring { is_ring result ≡ true }
    {
        Ring {
            window,
            greatest: 0,
            words: [0; MOST_WORDS],
        }
    }

    // The window, the greatest accepted nonce, and the words.
    pub(crate) fn into_parts(self) -> (Window, u64, [u64; MOST_WORDS])
        ensures { self ≡ record { window = result.0; greatest = result.1; words = result.2 } }
    {
        let Ring {
            window,
            greatest,
            words,
        } = self;
        (window, greatest, words)
    }

    // The ring of these parts, if some accepted nonces have it.
    pub(crate) fn from_parts(
        window: Window,
        greatest: u64,
        words: [u64; MOST_WORDS],
    ) -> Option<Ring>
        ensures known { is_some result ≡ is_ring (record { window = window; greatest = greatest; words = words }) }
        ensures value { IfSome result (λ ring. ring ≡ record { window = window; greatest = greatest; words = words }) }
    {
        let ring = Ring {
            window,
            greatest,
            words,
        };
        if ring.is_ring() { Some(ring) } else { None }
    }

    // Whether some accepted nonces have it.
    fn is_ring(&self) -> bool
        ensures { result ≡ is_ring self.now }
    {
        self.greatest < LAST_NONCE
            && self.ends_at_greatest()
            && are_zeros(&self.words[self.begun_words()..])
    }

    // Whether the greatest nonce's bit is the highest of its word, or there is no bit and no greatest nonce.
    fn ends_at_greatest(&self) -> bool
        ensures { result ≡ ends_at_greatest self.now }
    {
        let word = self.words[place(self.window, self.greatest / WORD_BITS)];
        word >> (self.greatest % WORD_BITS) == 1 || (self.greatest == 0 && word == 0)
    }

    // How many words have had a block.
    fn begun_words(&self) -> usize
        ensures value { result ≡ begun_words self.now }
        ensures within { result ≤ 17 }
    {
        bitmap_len(self.window).min(self.greatest / WORD_BITS + 1) as usize
    }

    // Why no datagram of this nonce is opened.
    pub(crate) fn refusal(&self, nonce: u64) -> Option<DatagramFault>
        ensures { result ≡ ring_fault self.now nonce }
    {
        if self.is_old(nonce) {
            Some(DatagramFault::Old)
        } else if self.contains(nonce) {
            Some(DatagramFault::Repeated)
        } else {
            None
        }
    }

    // Whether some accepted nonce is at least the width above this one.
    fn is_old(&self, nonce: u64) -> bool
        ensures { result ≡ is_below self.now nonce }
    {
        self.greatest.saturating_sub(nonce) >= self.window.width()
    }

    // Whether this nonce was accepted, which isn't old.
    fn contains(&self, nonce: u64) -> bool
        ensures { result ≡ is_marked self.now nonce }
    {
        let word = self.words[place(self.window, nonce / WORD_BITS)];
        nonce <= self.greatest && word >> (nonce % WORD_BITS) & 1 == 1
    }

    // Accepts this nonce, which isn't old.
    pub(crate) fn insert(&mut self, nonce: u64)
        ensures window { self.new.window ≡ self.old.window }
        ensures more { (accepted : List ℕ) → Recalls self.old accepted
            → is_old (width_of self.old.window) accepted nonce ≡ false
            → Recalls self.new (nonce ∷ accepted) }
        ensures ring { is_ring self.old ≡ true → self.old.greatest < nonce + width_of self.old.window
            → nonce < last_nonce → is_ring self.new ≡ true }
    {
        let block = nonce / WORD_BITS;
        if nonce > self.greatest {
            clear(
                self.window,
                &mut self.words,
                self.greatest / WORD_BITS,
                block,
            );
            self.greatest = nonce;
        }
        self.words[place(self.window, block)] |= 1 << (nonce % WORD_BITS);
    }
}

// How many words the ring of a window uses.
fn bitmap_len(window: Window) -> u64
    ensures value { result ≡ bitmap_len window }
    ensures within { (0 < result) × (result ≤ 17) }
{
    window.width() / WORD_BITS + 1
}

fn are_zeros(words: &[u64]) -> bool
    ensures { result ≡ list_all (λ word. word == 0) words.now }
{
    words.iter().all(|word| *word == 0)
}

// Where the word of a block stands.
fn place(window: Window, block: u64) -> usize
    ensures value { result ≡ block % bitmap_len window }
    ensures within { result < 17 }
{
    (block % bitmap_len(window)) as usize
}

// Clears the words of the blocks after `top` up to `block`: each word once at most.
fn clear(window: Window, words: &mut [u64; MOST_WORDS], top: u64, block: u64)
    requires order { top ≤ block }
    ensures fresh { (b : ℕ) → top < b → b ≤ block → block < b + bitmap_len window
        → slice_index words.new (b % bitmap_len window) ≡ 0 }
    ensures unchanged { (b : ℕ) → b ≤ top → block < b + bitmap_len window
        → slice_index words.new (b % bitmap_len window) ≡ slice_index words.old (b % bitmap_len window) }
    ensures beyond { drop (min (bitmap_len window) (block + 1)) words.new
        ≡ drop (min (bitmap_len window) (block + 1)) words.old }
{
    let count = (block - top).min(bitmap_len(window));
    for back in 0..count {
        words[place(window, block - back)] = 0;
    }
}
