//! Why nothing is written on a stream.

/// Why nothing is written. Looked for in this order; nothing changes.
#[derive(Clone, Copy, Debug, PartialEq, Eq)]
pub enum StreamFault {
    /// The stream was ended.
    Ended,
    /// This party is the responder of a one-way session: it writes nothing.
    OneWay,
    /// Only the last nonce is left, and that is the end's. No call of `end` meets this.
    Exhausted,
}
