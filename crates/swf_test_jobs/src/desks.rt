//! Who is told what at a desk.
use std::alloc::Global;
use std::io;
use swf_desk::Desk;
use swf_test_tables::number_of;

/// Adds the connection of a client that asks, or that it was handed back.
fn ask(alloc: Global, desk: &mut Desk<String>, name: &str, told: &mut String) -> io::Result<()> {
    match desk.admit(String::from_str(alloc, name)?) {
        Ok(conn) => told.push_str(format!(in alloc; " {name}:{conn}")?.as_str())?,
        Err(_) => told.push_str(" back")?,
    }
    Ok(())
}

/// Adds the client to whom something is said on a connection, or that there is none.
fn say(desk: &mut Desk<String>, number: &str, told: &mut String) -> io::Result<()> {
    match desk.release(number_of(number)?) {
        Some(client) => {
            told.push_str(" to ")?;
            told.push_str(client.as_str())?;
        }
        None => told.push_str(" nobody")?,
    }
    Ok(())
}

/// What comes of clients that ask and of connections to which something is said, in order.
pub fn told(alloc: Global, words: &str) -> io::Result<String> {
    let mut desk = Desk::new(alloc);
    let mut told = String::new(alloc);
    for word in words.split(' ') {
        if word.starts_with(|letter: char| letter.is_ascii_digit()) {
            say(&mut desk, word, &mut told)?;
        } else {
            ask(alloc, &mut desk, word, &mut told)?;
        }
    }
    Ok(told)
}
