// Rows on values: what is read and written, and what is made of them.
use std::alloc::{AllocError, Global};
use std::io;
use swf_test_tables::{bytes_of, no_meaning, number_of, split};
use swf_text::Text;
use swf_value::{
    Json, JsonNode, ValueFault, depth, read_json, read_json_within, size, size_within, write_json,
};

/// What comes of a row on values.
pub(crate) fn told(alloc: Global, word: &str, rest: &str) -> io::Result<String> {
    match word {
        "read" => read(alloc, rest.as_bytes(), 64),
        "read-hex" => read(alloc, &bytes_of(alloc, rest)?, 64),
        "nested" => nested(alloc, rest),
        "text" => written_text(alloc, rest),
        "copy" => copied(alloc, rest),
        "member" => member(alloc, rest),
        "names" => names(alloc, rest),
        "lists" => Ok(lists(alloc)?),
        "objects" => Ok(objects(alloc)?),
        _ => Err(no_meaning()),
    }
}

/// The text of a value.
pub(crate) fn text_of(alloc: Global, value: &Json) -> Result<String, AllocError> {
    let mut text = Vec::new(alloc);
    write_json(value, &mut text)?;
    match String::from_utf8(text) {
        Ok(text) => Ok(text),
        Err(_) => Err(AllocError),
    }
}

/// The text of what was read, or why nothing was.
fn outcome(alloc: Global, read: Result<Json, ValueFault>) -> Result<String, AllocError> {
    match read {
        Ok(value) => text_of(alloc, &value),
        Err(fault) => format!(in alloc; "{fault:?}"),
    }
}

/// Reads a value, in which so many lists and objects may be in one another. Where that is the usual number, `read_json`
/// answers the same.
fn read(alloc: Global, text: &[u8], most: u32) -> io::Result<String> {
    if most > 127 {
        return Err(no_meaning());
    }
    let within = outcome(alloc, read_json_within(alloc, text, most))?;
    if most != 64 {
        return Ok(within);
    }
    let usual = outcome(alloc, read_json(alloc, text))?;
    if usual.as_str() == within.as_str() {
        Ok(usual)
    } else {
        Ok(format!(in alloc; "{within} but {usual}")?)
    }
}

/// Lists in one another, round an inner text.
pub(crate) fn lists_round(alloc: Global, levels: u64, inner: &str) -> Result<Vec<u8>, AllocError> {
    let mut text = Vec::new(alloc);
    for _ in 0..levels {
        text.extend_from_slice(b"[")?;
    }
    text.extend_from_slice(inner.as_bytes())?;
    for _ in 0..levels {
        text.extend_from_slice(b"]")?;
    }
    Ok(text)
}

/// Reads so many lists round a text, where so many may be in one another. The text that is read is not told.
fn nested(alloc: Global, row: &str) -> io::Result<String> {
    let (levels, rest) = split(row)?;
    let (most, inner) = rest.split_once(' ').unwrap_or((rest, ""));
    let text = lists_round(alloc, number_of(levels)?, inner)?;
    let Ok(most) = u32::try_from(number_of(most)?) else {
        return Err(no_meaning());
    };
    let told = read(alloc, &text, most)?;
    if told.as_str().as_bytes() == text.as_slice() {
        Ok(String::from_str(alloc, "read")?)
    } else {
        Ok(told)
    }
}

/// The value that is this text, which is told in hex.
fn written_text(alloc: Global, hex: &str) -> io::Result<String> {
    match String::from_utf8(bytes_of(alloc, hex)?) {
        Ok(text) => {
            let value = Json::text(Text::from_string(alloc, text)?);
            Ok(text_of(alloc, &value)?)
        }
        Err(_) => Err(no_meaning()),
    }
}

fn value_of(alloc: Global, text: &str) -> io::Result<Json> {
    match read_json(alloc, text.as_bytes()) {
        Ok(value) => Ok(value),
        Err(_) => Err(no_meaning()),
    }
}

/// The text of a copy, and whether it equals the value and null.
fn copied(alloc: Global, text: &str) -> io::Result<String> {
    let value = value_of(alloc, text)?;
    let copy = value.copy()?;
    let is_same = copy.is(&value);
    let is_null = copy.is(&Json::null());
    let text = text_of(alloc, &copy)?;
    Ok(format!(in alloc; "{text}, same {is_same}, null {is_null}")?)
}

/// The text of the member whose name is told in hex.
fn member(alloc: Global, row: &str) -> io::Result<String> {
    let (name, text) = split(row)?;
    let Ok(name) = String::from_utf8(bytes_of(alloc, name)?) else {
        return Err(no_meaning());
    };
    let value = value_of(alloc, text)?;
    match value.member(name.as_str()) {
        Some(member) => Ok(text_of(alloc, member)?),
        None => Ok(String::from_str(alloc, "none")?),
    }
}

/// The names of the members, each as the text of a value.
fn names(alloc: Global, text: &str) -> io::Result<String> {
    let value = value_of(alloc, text)?;
    let JsonNode::Object(members) = value.node() else {
        return Err(no_meaning());
    };
    let mut names = String::new(alloc);
    for member in members.as_slice() {
        let name = text_of(alloc, &Json::text(member.name.copy()?))?;
        names.push_str(name.as_str())?;
    }
    Ok(names)
}

/// A list of one number, which has its copy too, and of one more.
fn lists(alloc: Global) -> Result<String, AllocError> {
    let mut list = Json::list(alloc, Vec::new(alloc))?;
    list.push(Json::int(1))?;
    let before = list.copy()?;
    list.push(Json::int(2))?;
    let (before, after) = (text_of(alloc, &before)?, text_of(alloc, &list)?);
    format!(in alloc; "{before} {after}")
}

/// An object of one member, which has its copy too, and of another value for it and one more member.
fn grown_object(alloc: Global) -> Result<(Json, Json), AllocError> {
    let empty = Json::list(alloc, Vec::new(alloc))?;
    let mut object = Json::object(alloc, Vec::new(alloc))?;
    object.put(Text::copy_of(alloc, "b")?, empty)?;
    let before = object.copy()?;
    object.put(Text::copy_of(alloc, "b")?, Json::int(2))?;
    object.put(Text::copy_of(alloc, "a")?, Json::int(1))?;
    Ok((before, object))
}

/// The texts of these objects, how deep they are, and the size of the second, also where no more than 4 are counted.
fn objects(alloc: Global) -> Result<String, AllocError> {
    let (before, after) = grown_object(alloc)?;
    let depths = (depth(&before), depth(&after));
    let sizes = (size(&after), size_within(&after, 4));
    let (before, after) = (text_of(alloc, &before)?, text_of(alloc, &after)?);
    format!(in alloc; "{before} {after}, depths {depths:?}, sizes {sizes:?}")
}
