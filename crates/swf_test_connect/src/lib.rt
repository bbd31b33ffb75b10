//! Tests of connectors: what is sent for a request and what its response gives, whom a switchboard asks, and one exchange over a socket.
#![tactic(auto)]

#[cfg(test)]
mod boards;
#[cfg(test)]
mod exchanges;
#[cfg(test)]
mod requests;
#[cfg(test)]
mod sockets;
