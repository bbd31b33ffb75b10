// One exchange over a socket.
use crate::requests::{reply_text, request_of};
use std::io::{self, Read, Write};
use std::net::{Ipv4Addr, SocketAddr, TcpListener};
use std::test::Fail;
use std::thread;
use swf_connect::{Connector, HttpConnector};
use swf_tcp::TcpDial;

const RESPONSE: &[u8] =
    b"HTTP/1.1 200 OK\r\nContent-Type: application/json\r\nContent-Length: 3\r\n\r\n[1]";

// Answers one request.
fn serve_once(listener: &TcpListener) -> io::Result<()> {
    let (mut stream, _) = listener.accept()?;
    let mut piece = [0u8; 1024];
    let _ = stream.read(&mut piece)?;
    stream.write_all(RESPONSE)
}

#[test]
fn sockets(rt: HostRuntime) -> Result<(), Fail> {
    let alloc = rt.alloc();
    let listener = TcpListener::bind(&rt, SocketAddr::from((Ipv4Addr::LOCALHOST, 0)))?;
    let port = listener.local_addr()?.port();
    let server = thread::spawn(&rt, move || serve_once(&listener))?;
    let uri = format!(in alloc; "http://127.0.0.1:{port}/a")?;
    let mut connector = HttpConnector::new(alloc, TcpDial::new(rt));
    let mut told = Vec::new(alloc);
    if let Some(request) = request_of(alloc, "GET", uri.as_str(), "", "")? {
        told = reply_text(alloc, &connector.perform(&request)?)?;
    }
    server.join(&rt)?;
    let expected =
        "{\"content\":[1],\"headers\":{\"content-length\":\"3\",\"content-type\":\"application/json\"},\"status\":200}";
    assert_eq!(rt; told.as_slice() == expected.as_bytes(), true);
    Ok(())
}
