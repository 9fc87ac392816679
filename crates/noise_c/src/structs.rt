//! The structs of C: those that `include/noise.h` declares as aligned bytes, and those in which a call reports.

/// A key of 32 bytes; none where `present` is 0.
#[repr(C)]
#[derive(Clone, Copy)]
pub struct NoiseKey {
    pub present: u8,
    pub bytes: [u8; 32],
}

/// The DH result of a key pair of this party, the ephemeral one where `of_static` is 0, and a public key of the other.
#[repr(C)]
#[derive(Clone, Copy)]
pub struct NoiseAnswer {
    pub of_static: u8,
    pub remote: [u8; 32],
    pub answer: [u8; 32],
}

/// A handshake of one party: the initiator where `responder` is 0. The text is that of its pattern, or its protocol
/// name. The psks that were handed in and are left are the last `psk_count` of `psks`.
#[repr(C)]
#[derive(Clone, Copy)]
pub struct NoiseHandshake {
    pub mark: u32,
    pub text: [u8; 416],
    pub text_len: u16,
    pub responder: u8,
    pub ended: u8,
    pub passed: u8,
    pub e: NoiseKey,
    pub s: NoiseKey,
    pub remote_e: NoiseKey,
    pub remote_s: NoiseKey,
    pub psk_count: u8,
    pub psks: [[u8; 32]; 9],
    pub answer_count: u8,
    pub answers: [NoiseAnswer; 8],
    pub chaining_key: [u8; 32],
    pub hash: [u8; 32],
    pub cipher: NoiseKey,
    pub nonce: u64,
}

/// What a handshake starts from: the role, the public keys of its own and of the other party's pre-message, and the
/// psks of the first psk tokens, in their order.
#[repr(C)]
#[derive(Drop)]
pub struct NoiseSetup {
    pub responder: u8,
    pub e: NoiseKey,
    pub s: NoiseKey,
    pub remote_e: NoiseKey,
    pub remote_s: NoiseKey,
    pub psk_count: u8,
    pub psks: [[u8; 32]; 9],
}

/// A half of a transport, the sending or the receiving one by its mark: of the initiator where `party` is 1, of the
/// responder where it is 2. At any other numbers there is none.
#[repr(C)]
#[derive(Clone, Copy)]
pub struct NoiseHalf {
    pub mark: u32,
    pub party: u8,
    pub one_way: u8,
    pub key: [u8; 32],
    pub interval: u64,
    pub nonce: u64,
}

/// The sending half of datagrams, as above.
#[repr(C)]
#[derive(Clone, Copy)]
pub struct NoiseDatagramSender {
    pub mark: u32,
    pub party: u8,
    pub one_way: u8,
    pub key: [u8; 32],
    pub nonce: u64,
}

/// The receiving half of datagrams. The window has 64, 256 or 1024 nonces.
#[repr(C)]
#[derive(Clone, Copy)]
pub struct NoiseDatagramReceiver {
    pub mark: u32,
    pub party: u8,
    pub one_way: u8,
    pub window: u32,
    pub key: [u8; 32],
    pub greatest: u64,
    pub words: [u64; 17],
}

/// The half that writes a stream: a sending half with a mark of its own, and whether the stream was ended.
#[repr(C)]
#[derive(Clone, Copy)]
pub struct NoiseStreamSender {
    pub half: NoiseHalf,
    pub ended: u8,
}

/// The half that reads a stream: a receiving half with a mark of its own, and the state: 0 open, 1 ended, 2 broken.
#[repr(C)]
#[derive(Clone, Copy)]
pub struct NoiseStreamReceiver {
    pub half: NoiseHalf,
    pub state: u8,
}

/// A cipher state of one party, for the messages that it writes or for those that it reads, by its mark. One that a
/// one-way pattern discards has a flag and no key.
#[repr(C)]
#[derive(Clone, Copy)]
pub struct NoiseCipher {
    pub mark: u32,
    pub one_way: u8,
    pub key: [u8; 32],
    pub nonce: u64,
}

/// What a call reports beside its number: a place or a length; the token of a refusal; the DH result that is wanted,
/// or, where a psk is, the other party's static key, which is known unless `remote_known` is 0.
#[repr(C)]
#[derive(Drop)]
pub struct NoiseResult {
    pub from: usize,
    pub len: usize,
    pub token: u8,
    pub of_static: u8,
    pub remote: [u8; 32],
    pub remote_known: u8,
}

/// Where a handshake stands: how many messages its pattern has and how many have passed, and two flags, 0 or 1.
#[repr(C)]
#[derive(Drop)]
pub struct NoiseStageResult {
    pub messages: u8,
    pub passed: u8,
    pub ended: u8,
    pub writes_next: u8,
}

/// What a check of a pattern text reports: the line of a fault, or the rule that is broken, and where.
#[repr(C)]
pub struct NoisePatternResult {
    pub line: usize,
    pub rule: u8,
    pub message: u8,
    pub token: u8,
    pub messages: u8,
}

/// What a call of a stream reports: a place or a length; how many first bytes are used; how many more are wanted.
#[repr(C)]
#[derive(Drop)]
pub struct NoiseStreamResult {
    pub from: usize,
    pub len: usize,
    pub used: usize,
    pub wanted: usize,
}

/// Which keys a party brings to the start of a handshake, 1 for each, else 0: its own, and those of the other party's
/// pre-message.
#[repr(C)]
#[derive(Clone, Copy)]
pub struct NoiseKeysNeeded {
    pub e: u8,
    pub s: u8,
    pub remote_e: u8,
    pub remote_s: u8,
}

/// What a pattern has: how many messages and psk tokens, whether it is one-way, 0 or 1, what the initiator and the
/// responder bring, and the tokens of the pre-messages and of the messages by their numbers, 0 after the last.
#[repr(C)]
#[derive(Clone, Copy)]
pub struct NoisePatternInfo {
    pub messages: u8,
    pub one_way: u8,
    pub psks: u8,
    pub needed: [NoiseKeysNeeded; 2],
    pub pre_messages: [[u8; 2]; 2],
    pub tokens: [[u8; 10]; 8],
}

/// A token's piece of a message, or the payload's: so many bytes from a place on, of which the last 16 are a tag unless
/// `encrypted` is 0.
#[repr(C)]
#[derive(Clone, Copy)]
pub struct NoisePiece {
    pub token: u8,
    pub encrypted: u8,
    pub from: u32,
    pub len: u32,
}

/// The length of a message, and its pieces: `count` of them, and zeros.
#[repr(C)]
#[derive(Clone, Copy)]
pub struct NoiseMessageLayout {
    pub count: u8,
    pub len: u32,
    pub pieces: [NoisePiece; 11],
}
