//! A durable engine for the CNCF Serverless Workflow DSL 1.0.0: the program over its library.
#![tactic(auto)]

use std::env;
use std::io::{self, BufReader, ErrorKind};
use std::process::ExitCode;
use std::rt::Env;
use swf_check::WholeHost;
use swf_cli::{Mode, read_words, swf_run};
use swf_connect::{Connector, HttpConnector, Switchboard};
use swf_host::ConsoleHost;
use swf_store::{FileStore, StoreFault};
use swf_tcp::TcpDial;

/// The words of the command line have no meaning.
const NO_MEANING: u8 = 2;

/// What the words may be.
const USAGE: &str =
    "usage: swf [--steps N] [--calls manual|http] check|session|show, where N is from 1 to 1000000";

/// The store could not be made.
const STORE_FAULT: u8 = 3;

/// No memory was found.
const NO_MEMORY: u8 = 6;

fn main(rt: HostRuntime) -> ExitCode {
    let alloc = rt.alloc();
    let words = match words(&rt) {
        Ok(words) => words,
        Err(status) => return ended(rt, status),
    };
    // Nothing is made where the words have no meaning.
    let meaning = match read_words(alloc, &words) {
        Ok(Some(meaning)) => meaning,
        Ok(None) => return ended(rt, NO_MEANING),
        Err(_) => return ended(rt, NO_MEMORY),
    };
    let Ok(reader) = BufReader::new(alloc, rt.reader()) else {
        return ExitCode::from(NO_MEMORY);
    };
    let Ok(http) = Box::new(alloc, HttpConnector::new(alloc, TcpDial::new(rt))) else {
        return ExitCode::from(NO_MEMORY);
    };
    let mut connectors: Vec<Box<dyn Connector + Send>> = Vec::new(alloc);
    if connectors.push(http).is_err() {
        return ExitCode::from(NO_MEMORY);
    }
    let mut board = Switchboard::new(connectors);
    if meaning.mode == Mode::Check {
        let mut host = WholeHost::new(alloc, reader, io::writer(&rt));
        return ExitCode::from(swf_run(alloc, &words, &mut host, &mut board));
    }
    let store = match FileStore::in_folder(rt, alloc, "") {
        Ok(store) => store,
        Err(StoreFault::Failed) => return ExitCode::from(STORE_FAULT),
        Err(StoreFault::OutOfMemory) => return ExitCode::from(NO_MEMORY),
    };
    let mut host = ConsoleHost::new(alloc, store, reader, io::writer(&rt));
    ExitCode::from(swf_run(alloc, &words, &mut host, &mut board))
}

// The status of a program that ends before it does anything. Where the words have no meaning, standard error is told what they may be.
fn ended(rt: HostRuntime, status: u8) -> ExitCode {
    if status == NO_MEANING {
        let _ = eprintln!(rt; "{USAGE}");
    }
    ExitCode::from(status)
}

// The words behind the program's name. Words that are not text have no meaning.
fn words(rt: &(impl Env + AllocGlobal)) -> Result<Vec<String>, u8> {
    let args = match env::args(rt) {
        Ok(args) => args,
        Err(error) if error.kind() == ErrorKind::OutOfMemory => return Err(NO_MEMORY),
        Err(_) => return Err(NO_MEANING),
    };
    let mut words = Vec::new(rt.alloc());
    for word in args.skip(1) {
        if words.push(word).is_err() {
            return Err(NO_MEMORY);
        }
    }
    Ok(words)
}
