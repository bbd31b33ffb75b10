// What holds of labels and their bytes.
ghost use Rattle.std.specs.Prelude.{◌≡◌, ◌<◌, ◌≤◌, ◌^◌, ℕ, List, Ok, length, slice_index};
ghost use Rattle.swf_value.specs.Value.{Value, IsValue, depth};
ghost use Rattle.swf_value.specs.Written.{written};
ghost use Rattle.swf_meaning.specs.declared.label.Label.{Label};
ghost use Rattle.swf_record.specs.Decodes.{decoded};
ghost use Rattle.swf_record.specs.Encodes.{FitsValue, Encodes};

/// Bytes are read as these labels exactly where they are the bytes of these labels, which are the
/// bytes of no other labels. Each value that nests at most so deep as is read fits, where its text is
/// short enough.
pub fn record_laws()
    ensures encoded { (labels : List Label) (bytes : List ℕ) → Encodes labels bytes → decoded bytes ≡ Ok labels }
    ensures decoded { (labels : List Label) (bytes : List ℕ) → ((k : ℕ) → slice_index bytes k < 256) → decoded bytes ≡ Ok labels → Encodes labels bytes }
    ensures one { (a b : List Label) (bytes : List ℕ) → Encodes a bytes → Encodes b bytes → a ≡ b }
    ensures values { (most : ℕ) (v : Value) → most ≤ 127 → IsValue v → depth v ≤ most → length (written v) < 2 ^ 32 → FitsValue most v }
{}
