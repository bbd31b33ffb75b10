//! Connectors, which answer calls: in memory, over HTTP, and as many of them as there are on a switchboard.
#![tactic(auto)]

mod answer;
mod asked;
mod connector;
mod content;
mod crossing;
mod dial;
mod exchange;
mod fails;
mod http_connector;
mod memory_connector;
mod memory_dial;
mod memory_link;
mod message;
mod switchboard;
mod talks;
mod uri;

pub use asked::Asked;
pub use connector::Connector;
pub use crossing::connectors_cross;
pub use dial::{Dial, Link};
pub use http_connector::HttpConnector;
pub use memory_connector::MemoryConnector;
pub use memory_dial::MemoryDial;
pub use memory_link::MemoryLink;
pub use switchboard::{Parties, Switchboard};
pub use talks::Spoken;
