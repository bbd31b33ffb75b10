// What holds of all that happens at a desk.
ghost use Rattle.std.specs.Prelude.{List};
ghost use Rattle.swf_desk.specs.Clients.{Event};
ghost use Rattle.swf_desk.specs.Answered.{AreAsked, IsAnswered, IsRight, IsOnce, IsHeard, IsSilent};

/// A connection means the client that asked on it, and nobody else ever; it means it until something was said to it, and then nobody. So
/// the first reply to an input is told to the client that asked it, and to no other, and a second one is told to nobody.
pub fn desk_laws<L, W>()
    ensures right { (es : List (Event L)) → IsRight es }
    ensures once { (es : List (Event L)) → IsOnce es }
    ensures heard { (es : List (Event L)) → IsHeard es }
    ensures inputs { (es : List (Event L)) → AreAsked W es }
    ensures answered { (es : List (Event L)) → IsAnswered es }
    ensures silent { (es : List (Event L)) → IsSilent es }
{}
