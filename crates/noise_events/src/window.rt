//! How far a datagram may come after another one (Noise, 11.4).

ghost use Rattle.std.specs.Prelude.{◌≡◌};

/// How far a datagram may come after another one and still be opened: the nonces less than the width below the greatest
/// accepted one, each of which is accepted once.
#[derive(Clone, Copy, Debug, PartialEq, Eq)]
pub enum Window {
    /// 64 nonces.
    W64,
    /// 256 nonces.
    W256,
    /// 1024 nonces.
    W1024,
}

impl Window {
    ghost use Rattle.noise_events.specs.Windows.{width_of};

    /// How many nonces it has.
    pub fn width(self) -> u64
        ensures { result ≡ width_of self }
    {
        match self {
            Window::W64 => 64,
            Window::W256 => 256,
            Window::W1024 => 1024,
        }
    }
}
