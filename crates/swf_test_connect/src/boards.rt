// Whom a switchboard asks.
use crate::requests::request_of;
use std::alloc::{AllocError, Global};
use std::test::Fail;
use swf_calls::CallReply;
use swf_connect::{Connector, MemoryConnector, Switchboard};
use swf_text::Text;

// A connector for the URIs of a scheme, which has no reply.
fn silent(alloc: Global, scheme: &str) -> Result<MemoryConnector, AllocError> {
    let scheme = Text::copy_of(alloc, scheme)?;
    Ok(MemoryConnector::new(alloc, scheme, Vec::new(alloc), Vec::new(alloc)))
}

// Asks a board by a request for a URI, and tells whether it was answered.
fn ask(
    alloc: Global,
    board: &mut Switchboard,
    uri: &str,
    told: &mut String,
) -> Result<(), AllocError> {
    let Some(request) = request_of(alloc, "GET", uri, "", "")? else {
        return Ok(());
    };
    match board.perform(&request)? {
        CallReply::Answer { .. } => told.push_str("answered "),
        CallReply::Unreached => told.push_str("unreached "),
    }
}

// Tells a number of times.
fn tell(times: Option<u64>, told: &mut String) -> Result<(), AllocError> {
    match times {
        Some(0) => told.push_str("0"),
        Some(1) => told.push_str("1"),
        Some(2) => told.push_str("2"),
        _ => told.push_str("?"),
    }
}

// Whether each of some requests reaches nobody, and how often each of three connectors was asked: two for one scheme, and one for
// another.
fn asked(alloc: Global, told: &mut String) -> Result<(), AllocError> {
    let mut connectors: Vec<Box<dyn Connector + Send>> = Vec::new(alloc);
    connectors.push(Box::new(alloc, silent(alloc, "m")?)?)?;
    connectors.push(Box::new(alloc, silent(alloc, "m")?)?)?;
    connectors.push(Box::new(alloc, silent(alloc, "n")?)?)?;
    let mut board = Switchboard::new(connectors);
    for uri in ["m:1", "m:2", "mm:3", "n:4"] {
        ask(alloc, &mut board, uri, told)?;
    }
    for connector in board.close().as_slice() {
        tell(connector.told(), told)?;
    }
    Ok(())
}

#[test]
fn boards(rt: HostRuntime) -> Result<(), Fail> {
    let mut told = String::new(rt.alloc());
    asked(rt.alloc(), &mut told)?;
    assert_eq!(rt;
        told.as_str(),
        "unreached unreached unreached unreached 201"
    );
    Ok(())
}
