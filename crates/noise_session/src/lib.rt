//! Noise sessions over a stream: messages in frames, handled by one party.
#![tactic(auto)]

mod counted;
mod datagram_fault;
mod datagram_receiver;
mod datagram_sender;
mod datagrams;
mod end;
mod faults;
mod frame;
mod framing;
mod half;
pub mod laws;
pub mod limits;
mod parts;
mod phase;
mod receiver;
mod rekeying;
mod sender;
mod stage;
mod state;
mod step;
mod transport;
mod window;

pub use counted::Counted;
pub use datagram_fault::DatagramFault;
pub use datagram_receiver::DatagramReceiver;
pub use datagram_sender::DatagramSender;
pub use datagrams::Datagrams;
pub use end::End;
pub use faults::{OpenFault, ReceiveFault, SendFault};
pub use framing::frame_message;
pub use noise_events::Window;
pub use parts::{DatagramReceiverParts, DatagramSenderParts, HalfParts};
pub use receiver::Receiver;
pub use sender::Sender;
pub use stage::Stage;
pub use step::Step;
pub use transport::Transport;
