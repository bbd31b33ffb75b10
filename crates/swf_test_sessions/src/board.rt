// Who answers the calls of a part of a session: a connector over HTTP, whose links give what stands in the part, and behind it
// connectors of other schemes, which reach nobody. A part that names none of them has no connector at all.
use std::alloc::{AllocError, Global};
use std::io;
use swf_connect::{HttpConnector, MemoryConnector, MemoryDial, Switchboard};
use swf_test_tables::{bytes_of, number_of, split};
use swf_text::Text;

/// What a part says of those who answer its calls.
#[derive(Drop)]
pub(crate) struct Answering<'a> {
    /// What each link over HTTP gives, in order.
    links: Vec<Vec<u8>>,
    /// The numbers of the dials that fail.
    failing: Vec<u64>,
    /// The schemes of the connectors behind that over HTTP.
    schemes: Vec<&'a str>,
}

/// Those who answer the calls of a part.
#[derive(Drop)]
pub(crate) struct Answerers {
    pub(crate) http: Option<HttpConnector<MemoryDial>>,
    /// Connectors that reach nobody.
    pub(crate) silent: Vec<MemoryConnector>,
}

impl<'a> Answering<'a> {
    pub(crate) fn nobody(alloc: Global) -> Answering<'a> {
        Answering {
            links: Vec::new(alloc),
            failing: Vec::new(alloc),
            schemes: Vec::new(alloc),
        }
    }

    /// Has the next link give a response of a status, a type and, where one stands there, a body.
    pub(crate) fn respond(&mut self, alloc: Global, order: &str) -> io::Result<()> {
        self.links.push(response(alloc, order)?)?;
        Ok(())
    }

    /// Has the next link give these bytes.
    pub(crate) fn give(&mut self, alloc: Global, digits: &str) -> io::Result<()> {
        self.links.push(bytes_of(alloc, digits)?)?;
        Ok(())
    }

    /// Has the dial of a number fail.
    pub(crate) fn fail(&mut self, number: &str) -> io::Result<()> {
        self.failing.push(number_of(number)?)?;
        Ok(())
    }

    /// Puts a connector of a scheme behind the others.
    pub(crate) fn also(&mut self, scheme: &'a str) -> io::Result<()> {
        self.schemes.push(scheme)?;
        Ok(())
    }

    fn is_nobody(&self) -> bool {
        self.links.is_empty() && self.failing.is_empty() && self.schemes.is_empty()
    }

    /// The connectors of them.
    pub(crate) fn connectors(self, alloc: Global) -> Result<Answerers, AllocError> {
        if self.is_nobody() {
            return Ok(Answerers {
                http: None,
                silent: Vec::new(alloc),
            });
        }
        let Answering {
            links,
            failing,
            schemes,
        } = self;
        let mut silent = Vec::new(alloc);
        for scheme in schemes.as_slice() {
            silent.push(silent_one(alloc, scheme)?)?;
        }
        let http = HttpConnector::new(alloc, MemoryDial::new(alloc, links, failing));
        Ok(Answerers {
            http: Some(http),
            silent,
        })
    }
}

// A whole response over HTTP/1.1.
fn response(alloc: Global, order: &str) -> io::Result<Vec<u8>> {
    let (status, rest) = split(order)?;
    let (kind, body) = rest.split_once(' ').unwrap_or((rest, ""));
    let size = body.len();
    let text = format!(in alloc;
        "HTTP/1.1 {status} \r\nContent-Type: {kind}\r\nContent-Length: {size}\r\n\r\n{body}"
    )?;
    Ok(text.into_bytes())
}

// A connector of a scheme, which has no reply.
fn silent_one(alloc: Global, scheme: &str) -> Result<MemoryConnector, AllocError> {
    let scheme = Text::copy_of(alloc, scheme)?;
    let none = Vec::new(alloc);
    Ok(MemoryConnector::new(alloc, scheme, Vec::new(alloc), none))
}

/// How often each connector of a board was asked, in order, and `-` for one that does not tell it.
pub(crate) fn asked(alloc: Global, board: Switchboard) -> Result<String, AllocError> {
    let mut told = String::new(alloc);
    for connector in board.close().as_slice() {
        if !told.is_empty() {
            told.push_str(" ")?;
        }
        match connector.told() {
            Some(count) => told.push_str(format!(in alloc; "{count}")?.as_str())?,
            None => told.push_str("-")?,
        }
    }
    Ok(told)
}
