//! Links over TCP, and who makes them: the only sockets.
#![tactic(auto)]

mod tcp;

pub use tcp::{TcpDial, TcpLink};
