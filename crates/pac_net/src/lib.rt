//! The network as the program sees it: a link over a UDP socket and a stream beside it, and numbers of questions that are
//! hard to foresee.
//!
//! The adapters are a few lines each and tell nothing: that a socket gives what a peer sent is the machine's matter.
//! Which datagrams are taken, and where those that are sent go, is proved. It stands on pac_ports, whose traits they
//! meet.
#![tactic(auto)]

mod addresses;
mod datagrams;
mod random_dice;
mod sockets;
mod stream;
mod udp_link;

pub use random_dice::RandomDice;
pub use udp_link::UdpLink;
