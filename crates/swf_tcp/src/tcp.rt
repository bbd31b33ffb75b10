// Links over sockets, and who makes them. They tell nothing of what passes.
use std::io::{self, ErrorKind, Read, Write};
use std::net::{Net, OpenStream, TcpStream, ToSocketAddrs};
use std::time::Duration;
use swf_connect::{Dial, Link};
use swf_http::{Sink, Source};
use swf_store::Failed;

/// How long connecting may take, in seconds.
const MOST_CONNECT: u64 = 10;

/// How long a read or a write may take, in seconds.
const MOST_WAIT: u64 = 60;

/// How often a call that a signal cut short is made again.
const TRIES: u32 = 1000;

/// A socket, as a source and a sink.
#[derive(Drop)]
pub struct TcpLink<S> {
    stream: S,
    reads: u64,
    writes: u64,
}

impl<S: Read> Source for TcpLink<S> {
    ghost use Rattle.std.specs.Prelude.{ℕ, None};
    ghost use Rattle.swf_tcp.specs.Sockets.{reads_of, writes_of};

    ghost left = { λ _. None };

    ghost faults = { reads_of };

    ghost Beside = { ℕ };

    ghost beside = { writes_of };

    fn read(&mut self, into: &mut [u8]) -> Result<usize, Failed> {
        for _ in 0..TRIES {
            match self.stream.read(into) {
                Ok(count) => return Ok(count),
                Err(error) if error.kind() == ErrorKind::Interrupted => {}
                Err(_) => break,
            }
        }
        self.reads = self.reads.saturating_add(1);
        Err(Failed)
    }
}

impl<S: Write> Sink for TcpLink<S> {
    ghost use Rattle.std.specs.Prelude.{ℕ, None};
    ghost use Rattle.swf_tcp.specs.Sockets.{reads_of, writes_of};

    ghost written = { λ _. None };

    ghost write_faults = { writes_of };

    ghost Kept = { ℕ };

    ghost kept = { reads_of };

    fn write(&mut self, bytes: &[u8]) -> Result<usize, Failed> {
        for _ in 0..TRIES {
            match self.stream.write(bytes) {
                Ok(0) if !bytes.is_empty() => break,
                Ok(count) => return Ok(count),
                Err(error) if error.kind() == ErrorKind::Interrupted => {}
                Err(_) => break,
            }
        }
        self.writes = self.writes.saturating_add(1);
        Err(Failed)
    }
}

impl<S: Read + Write> Link for TcpLink<S> {
    ghost use Rattle.std.specs.Prelude.{None, refl};

    ghost about = { λ _. None };

    ghost read_keeps = { λ a b same. (refl, same, refl) };

    ghost write_keeps = { λ a b same. (refl, same, refl) };
}

/// Makes links over TCP: a connection within 10 seconds, and 60 for each read and each write on it.
#[derive(Drop)]
pub struct TcpDial<R> {
    rt: R,
    faults: u64,
}

impl<R> TcpDial<R> {
    pub fn new(rt: R) -> TcpDial<R> {
        TcpDial { rt, faults: 0 }
    }
}

/// A host without the brackets that a URL has around an address of IPv6.
fn bare(host: &str) -> &str {
    let Some(open) = host.strip_prefix('[') else {
        return host;
    };
    open.strip_suffix(']').unwrap_or(host)
}

/// A connection to the first of a host's addresses that answers.
fn connect<R: Net>(rt: &R, host: &str, port: u16) -> io::Result<R::Stream> {
    let mut last = io::Error::from(ErrorKind::NotFound);
    for address in (bare(host), port).to_socket_addrs(rt)? {
        match TcpStream::connect_timeout(rt, &address, Duration::from_secs(MOST_CONNECT)) {
            Ok(stream) => {
                stream.set_nodelay(true)?;
                stream.set_read_timeout(Some(Duration::from_secs(MOST_WAIT)))?;
                stream.set_write_timeout(Some(Duration::from_secs(MOST_WAIT)))?;
                return Ok(stream);
            }
            Err(error) => last = error,
        }
    }
    Err(last)
}

impl<R: Net> Dial for TcpDial<R> {
    type Link = TcpLink<R::Stream>;

    ghost use Rattle.std.specs.Prelude.{None};
    ghost use Rattle.swf_tcp.specs.Sockets.{faults_of};

    ghost talks = { λ _. None };

    ghost dial_faults = { faults_of };

    fn dial(&mut self, host: &str, port: u16) -> Result<TcpLink<R::Stream>, Failed> {
        match connect(&self.rt, host, port) {
            Ok(stream) => Ok(TcpLink {
                stream,
                reads: 0,
                writes: 0,
            }),
            Err(_) => {
                self.faults = self.faults.saturating_add(1);
                Err(Failed)
            }
        }
    }

    fn hang_up(&mut self, link: TcpLink<R::Stream>) {
        self.faults = self
            .faults
            .saturating_add(link.reads)
            .saturating_add(link.writes);
    }
}
