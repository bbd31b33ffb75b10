// Writing a value as text.
ghost use Rattle.std.specs.Prelude.{◌≡◌, ◌++◌, ◌<◌, ◌≤◌, ◌∷◌, List, ℕ, [], Ok, OnOk, OnErr, IsTrue, true, false};
ghost use Rattle.std.specs.Char.{digit_char};
ghost use Rattle.std.specs.Fmt.{signed_decimal};
ghost use Rattle.std.specs.List.{flat_map};
ghost use Rattle.std.specs.Str.{all_scalars};
ghost use Rattle.swf_value.specs.Node.{items_of, members_of};
ghost use Rattle.swf_value.specs.Value.{Value, IsValue, AreItems, AreMembers, depth};
ghost use Rattle.swf_value.specs.Written.{written, comma, written_items, written_members, quoted, escaped_byte, Extends};
ghost use Rattle.swf_value.specs.Read.{read_within};

use crate::value::{Json, JsonNode, Member};
use itoa::Buffer;
use std::alloc::AllocError;
use swf_text::Text;

/// Appends the compact text of a value. After an `Err` nothing was appended.
pub fn write_json(value: &Json, out: &mut Vec<u8>) -> Result<(), AllocError>
    ensures ok { OnOk result (out.new.items ≡ out.old.items ++ written value.now) }
    ensures value { OnOk result (IsValue value.now) }
    ensures err { OnErr result (out.new.items ≡ out.old.items) }
{
    let start = out.len();
    match write_value(value, out) {
        Ok(()) => Ok(()),
        Err(error) => {
            out.truncate(start);
            Err(error)
        }
    }
}

/// Appends a value's text. After an `Err` some of it may stand there.
#[cycle(write)]
fn write_value(value: &Json, out: &mut Vec<u8>) -> Result<(), AllocError>
    ensures ok { OnOk result (out.new.items ≡ out.old.items ++ written value.now) }
    ensures value { OnOk result (IsValue value.now) }
    ensures kept { Extends out.old.items out.new.items }
{
    match value.node() {
        JsonNode::Null => out.extend_from_slice(b"null"),
        JsonNode::Bool(true) => out.extend_from_slice(b"true"),
        JsonNode::Bool(false) => out.extend_from_slice(b"false"),
        JsonNode::Int(number) => write_number(*number, out),
        JsonNode::Text(text) => write_text(text, out),
        JsonNode::List(items) => write_list(items.as_slice(), out),
        JsonNode::Object(members) => write_object(members.as_slice(), out),
    }
}

/// Appends the digits of a number.
fn write_number(number: i64, out: &mut Vec<u8>) -> Result<(), AllocError>
    ensures ok { OnOk result (out.new.items ≡ out.old.items ++ signed_decimal number) }
    ensures err { OnErr result (out.new.items ≡ out.old.items) }
{
    let mut buffer = Buffer::new();
    out.extend_from_slice(buffer.format(number).as_bytes())
}

/// Appends a list's text, with its brackets.
#[cycle(write)]
fn write_list(items: &[Json], out: &mut Vec<u8>) -> Result<(), AllocError>
    ensures ok { OnOk result
        (out.new.items ≡ out.old.items ++ 91 ∷ (written_items false (items_of items.now) ++ 93 ∷ [])) }
    ensures value { OnOk result (AreItems (items_of items.now)) }
    ensures kept { Extends out.old.items out.new.items }
{
    out.extend_from_slice(b"[")?;
    for (index, item) in items.iter().enumerate() {
        write_comma(index > 0, out)?;
        write_value(item, out)?;
    }
    out.extend_from_slice(b"]")
}

/// Appends an object's text, with its brackets.
#[cycle(write)]
fn write_object(members: &[Member], out: &mut Vec<u8>) -> Result<(), AllocError>
    ensures ok { OnOk result
        (out.new.items
        ≡ out.old.items ++ 123 ∷ (written_members false (members_of members.now) ++ 125 ∷ [])) }
    ensures value { OnOk result (AreMembers (members_of members.now)) }
    ensures kept { Extends out.old.items out.new.items }
{
    out.extend_from_slice(b"{")?;
    for (index, member) in members.iter().enumerate() {
        write_comma(index > 0, out)?;
        write_name(&member.name, out)?;
        write_value(&member.value, out)?;
    }
    out.extend_from_slice(b"}")
}

/// Appends a comma, where something stands before.
fn write_comma(later: bool, out: &mut Vec<u8>) -> Result<(), AllocError>
    ensures ok { OnOk result (out.new.items ≡ out.old.items ++ comma later) }
    ensures err { OnErr result (out.new.items ≡ out.old.items) }
{
    if later {
        out.extend_from_slice(b",")
    } else {
        Ok(())
    }
}

/// Appends a member's name and its colon.
fn write_name(name: &Text, out: &mut Vec<u8>) -> Result<(), AllocError>
    ensures ok { OnOk result (out.new.items ≡ out.old.items ++ (quoted name.now ++ 58 ∷ [])) }
    ensures scalars { OnOk result (all_scalars name.now ≡ true) }
    ensures kept { Extends out.old.items out.new.items }
{
    write_text(name, out)?;
    out.extend_from_slice(b":")
}

/// Appends a text between quotation marks.
fn write_text(text: &Text, out: &mut Vec<u8>) -> Result<(), AllocError>
    ensures ok { OnOk result (out.new.items ≡ out.old.items ++ quoted text.now) }
    ensures scalars { OnOk result (all_scalars text.now ≡ true) }
    ensures kept { Extends out.old.items out.new.items }
{
    out.extend_from_slice(b"\"")?;
    write_bytes(text.as_str().as_bytes(), out)?;
    out.extend_from_slice(b"\"")
}

/// Appends what stands in a text for these bytes of its UTF-8: runs of those that stand for
/// themselves at once.
fn write_bytes(bytes: &[u8], out: &mut Vec<u8>) -> Result<(), AllocError>
    ensures ok { OnOk result (out.new.items ≡ out.old.items ++ flat_map escaped_byte bytes.now) }
    ensures kept { Extends out.old.items out.new.items }
{
    let mut start = 0;
    for (index, byte) in bytes.iter().enumerate() {
        if is_plain(*byte) {
            continue;
        }
        out.extend_from_slice(&bytes[start..index])?;
        write_byte(*byte, out)?;
        start = index + 1;
    }
    out.extend_from_slice(&bytes[start..])
}

/// Whether a byte stands for itself in a text.
fn is_plain(byte: u8) -> bool
    ensures { IsTrue result → escaped_byte byte ≡ byte ∷ [] }
{
    byte >= 0x20 && byte != b'"' && byte != b'\\'
}

/// Appends what stands in a text for one byte of its UTF-8.
fn write_byte(byte: u8, out: &mut Vec<u8>) -> Result<(), AllocError>
    ensures ok { OnOk result (out.new.items ≡ out.old.items ++ escaped_byte byte) }
    ensures err { OnErr result (out.new.items ≡ out.old.items) }
{
    match byte {
        b'"' => out.extend_from_slice(b"\\\""),
        b'\\' => out.extend_from_slice(b"\\\\"),
        0x08 => out.extend_from_slice(b"\\b"),
        0x0c => out.extend_from_slice(b"\\f"),
        b'\n' => out.extend_from_slice(b"\\n"),
        b'\r' => out.extend_from_slice(b"\\r"),
        b'\t' => out.extend_from_slice(b"\\t"),
        0..=0x1f => {
            let digits = [hex_digit(byte / 16), hex_digit(byte % 16)];
            out.extend_from_slice(&[b'\\', b'u', b'0', b'0', digits[0], digits[1]])
        }
        _ => out.extend_from_slice(&[byte]),
    }
}

/// A digit of base sixteen.
fn hex_digit(digit: u8) -> u8
    requires { digit < 16 }
    ensures { result ≡ digit_char digit }
{
    if digit < 10 {
        b'0' + digit
    } else {
        b'a' + (digit - 10)
    }
}

/// What is written is read again.
pub fn reads_back()
    ensures { (most : ℕ) (v : Value) → IsValue v → depth v ≤ most → most ≤ 127 → read_within most (written v) ≡ Ok v }
{}
