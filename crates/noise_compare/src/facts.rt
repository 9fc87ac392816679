//! What a run begins with.

/// What a vector file gives for its run, and what the keys of both parties give.
#[derive(Drop)]
pub struct Facts {
    /// The protocol name.
    pub name: Vec<u8>,
    pub prologue: Vec<u8>,
    /// The public keys of both parties.
    pub publics: Vec<[u8; 32]>,
    /// The DH results of each key of one party and each of the other.
    pub results: Vec<[u8; 32]>,
    pub psks: Vec<[u8; 32]>,
}
