// What holds of replies and their values.
ghost use Rattle.std.specs.Prelude.{◌≡◌, ◌≤◌, ℕ, suc, List, Some};
ghost use Rattle.swf_value.specs.Value.{Value, depth};
ghost use Rattle.swf_calls.specs.declared.headers.Header.{Header};
ghost use Rattle.swf_calls.specs.declared.reply.CallReply.{CallReply};
ghost use Rattle.swf_calls.specs.declared.reply.CallReply.TheVariants.{Answer};
ghost use Rattle.swf_calls.specs.Reply.{reply_of, reply_value, IsInRange};

/// A value is read as a reply exactly where it is the value of that reply, whose status is in range.
/// What an answer brings nests less deep than the value that it is read from.
pub fn reply_laws()
    ensures value { (v : Value) (r : CallReply) → reply_of v ≡ Some r → reply_value r ≡ v }
    ensures range { (v : Value) (r : CallReply) → reply_of v ≡ Some r → IsInRange r }
    ensures reply { (r : CallReply) → IsInRange r → reply_of (reply_value r) ≡ Some r }
    ensures content { (v : Value) (s : ℕ) (h : List Header) (c : Value) → reply_of v ≡ Some (Answer s h c) → suc (depth c) ≤ depth v }
{}
