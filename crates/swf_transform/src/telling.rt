// What is told of a value.
ghost use Rattle.std.specs.Prelude.{◌≡◌, IfOk, chars};
ghost use Rattle.swf_value.specs.Written.{written};
ghost use Rattle.swf_templates.specs.Fill.{message};

use std::alloc::{AllocError, Global};
use swf_text::Text;
use swf_value::{Json, JsonNode, write_json};

/// What is told of a raised value: a text itself, and else the value's JSON text.
pub fn message(alloc: Global, value: &Json) -> Result<Text, AllocError>
    ensures { IfOk result (λ t. t ≡ message value.now) }
{
    match value.node() {
        JsonNode::Text(text) => text.copy(),
        _ => json_text(alloc, value),
    }
}

/// The JSON text of a value.
fn json_text(alloc: Global, value: &Json) -> Result<Text, AllocError>
    ensures { IfOk result (λ t. t ≡ chars (written value.now)) }
{
    let mut bytes = Vec::new(alloc);
    write_json(value, &mut bytes)?;
    match String::from_utf8(bytes) {
        Ok(written) => Text::from_string(alloc, written),
        Err(_) => unreachable!(),
    }
}
