// The form in which rows tell bytes. `\r` and `\n` are CR and LF, `\x` and two hexadecimal digits a byte, `{3*ab}` is `ababab`, and
// any other character is its UTF-8.
use std::alloc::{AllocError, Global};
use std::io;
use swf_test_tables::{bytes_of, no_meaning, number_of};

/// More characters than these are told by their number and the first of them.
const MOST_TOLD: usize = 60;

/// How many characters of a long text are told.
const FIRST_TOLD: usize = 20;

// Adds the byte that two digits tell, and the text behind them.
fn add_byte(alloc: Global, out: &mut Vec<u8>, text: &str) -> io::Result<()> {
    let Some((digits, rest)) = text.split_at_checked(2) else {
        return Err(no_meaning());
    };
    let byte = bytes_of(alloc, digits)?;
    out.extend_from_slice(&byte)?;
    Ok(out.extend_from_slice(rest.as_bytes())?)
}

// Adds what stands behind a backslash.
fn add_escape(alloc: Global, out: &mut Vec<u8>, text: &str) -> io::Result<()> {
    if let Some(rest) = text.strip_prefix("r") {
        out.push(b'\r')?;
        Ok(out.extend_from_slice(rest.as_bytes())?)
    } else if let Some(rest) = text.strip_prefix("n") {
        out.push(b'\n')?;
        Ok(out.extend_from_slice(rest.as_bytes())?)
    } else if let Some(rest) = text.strip_prefix("x") {
        add_byte(alloc, out, rest)
    } else {
        Err(no_meaning())
    }
}

// Adds a text in which nothing is repeated.
fn add_text(alloc: Global, out: &mut Vec<u8>, text: &str) -> io::Result<()> {
    let mut parts = text.split('\\');
    if let Some(first) = parts.next() {
        out.extend_from_slice(first.as_bytes())?;
    }
    for part in parts {
        add_escape(alloc, out, part)?;
    }
    Ok(())
}

// Adds what stands behind an opening brace.
fn add_repeated(alloc: Global, out: &mut Vec<u8>, text: &str) -> io::Result<()> {
    let Some((repeated, rest)) = text.split_once('}') else {
        return Err(no_meaning());
    };
    let Some((times, part)) = repeated.split_once('*') else {
        return Err(no_meaning());
    };
    let mut bytes = Vec::new(alloc);
    add_text(alloc, &mut bytes, part)?;
    for _ in 0..number_of(times)? {
        out.extend_from_slice(&bytes)?;
    }
    add_text(alloc, out, rest)
}

/// The bytes that a text tells.
pub(crate) fn bytes_in(alloc: Global, text: &str) -> io::Result<Vec<u8>> {
    let mut bytes = Vec::new(alloc);
    let mut parts = text.split('{');
    if let Some(first) = parts.next() {
        add_text(alloc, &mut bytes, first)?;
    }
    for part in parts {
        add_repeated(alloc, &mut bytes, part)?;
    }
    Ok(bytes)
}

/// Adds bytes in the form of rows.
pub(crate) fn tell_each(out: &mut String, bytes: &[u8]) -> Result<(), AllocError> {
    for byte in bytes {
        match *byte {
            b'\r' => out.push_str("\\r")?,
            b'\n' => out.push_str("\\n")?,
            b'\\' | b'{' => write!(out, "\\x{byte:02x}")?,
            b' '..=b'~' => out.push(char::from(*byte))?,
            _ => write!(out, "\\x{byte:02x}")?,
        }
    }
    Ok(())
}

/// Adds bytes in the form of rows, of many the first and their number.
pub(crate) fn tell_bytes(out: &mut String, bytes: &[u8]) -> Result<(), AllocError> {
    if bytes.len() <= MOST_TOLD {
        return tell_each(out, bytes);
    }
    tell_each(out, &bytes[..FIRST_TOLD])?;
    write!(out, ".. ({} bytes)", bytes.len())
}

/// Adds a text, of a long one the first characters and their number.
pub(crate) fn tell_text(out: &mut String, text: &str) -> Result<(), AllocError> {
    let count = text.chars().count();
    if count <= MOST_TOLD {
        return out.push_str(text);
    }
    for character in text.chars().take(FIRST_TOLD) {
        out.push(character)?;
    }
    write!(out, ".. ({count} characters)")
}
