// Reading bytes as a value.
ghost use Rattle.std.specs.Prelude.{◌≡◌, ◌≤◌, ◌⊎◌, Err, IfOk, Some};
ghost use Rattle.serde_json.specs.Data.{Data};
ghost use Rattle.swf_value.specs.Value.{IsValue, depth as value_depth};
ghost use Rattle.swf_value.specs.Read.{read_within, value_or_fault};
ghost use Rattle.swf_value.specs.Found.{IsFound};

use crate::fault::ValueFault;
use crate::find::find;
use crate::value::Json;
use crate::whole::Found;
use std::alloc::Global;

/// Reads one value, in which lists and objects nest at most 64 deep. Of equal names the last is kept.
pub fn read_json(alloc: Global, bytes: &[u8]) -> Result<Json, ValueFault>
    ensures read { (result ≡ Err ValueFault.OutOfMemory) ⊎ (result ≡ read_within 64 bytes.now) }
    ensures value { IfOk result IsValue }
    ensures shallow { IfOk result (λ v. value_depth v ≤ 64) }
{
    read_json_within(alloc, bytes, 64)
}

/// Reads one value, in which lists and objects nest at most `depth` deep. Of equal names the last is kept.
pub fn read_json_within(alloc: Global, bytes: &[u8], depth: u32) -> Result<Json, ValueFault>
    requires { depth ≤ 127 }
    ensures read { (result ≡ Err ValueFault.OutOfMemory) ⊎ (result ≡ read_within depth bytes.now) }
    ensures value { IfOk result IsValue }
    ensures shallow { IfOk result (λ v. value_depth v ≤ depth) }
{
    let Ok(text) = str::from_utf8(bytes) else {
        return Err(ValueFault::NotJson);
    };
    match find(alloc, text) {
        Ok(Some(found)) => value_within(found, depth),
        Ok(None) => Err(ValueFault::NotJson),
        Err(_) => Err(ValueFault::OutOfMemory),
    }
}

/// What was found as a value, if it nests at most `most` deep and is whole.
fn value_within(found: Found, most: u32) -> Result<Json, ValueFault>
    requires { most ≤ 127 }
    ensures { (d : Data) → IsFound d found → (result ≡ value_or_fault most (Some d))
        × IfOk result IsValue }
{
    if found.depth > most {
        return Err(ValueFault::TooDeep);
    }
    match found.value {
        Some(value) => Ok(value),
        None => Err(ValueFault::NotWhole),
    }
}
