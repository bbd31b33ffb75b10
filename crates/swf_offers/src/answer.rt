// What a call is answered, put where the call awaits it (DSL 1.0.0, reference, "HTTP Call").
ghost use Rattle.std.specs.Prelude.{◌≡◌, Some};
ghost use Rattle.swf_frames.specs.Tree.{Branch, find};
ghost use Rattle.swf_meaning.specs.Reply.{is_open};
ghost use Rattle.swf_offers.specs.Answers.{IsAnswerHere, IsAnswerIn, answered_top, is_open_in_top};
ghost use Rattle.swf_stack.specs.declared.made.Stand.{Stand as TheStand};
ghost use Rattle.swf_strands.specs.Strands.{IsHeld, node_of};

use swf_calls::CallReply;
use swf_document::{Boxed, Flow};
use swf_frames::{Forest, StrandId};
use swf_stack::{Stand, Top};
use swf_strands::{child_of, stand_of};
use swf_text::{Text, same_texts};
use swf_value::Json;

// Whether the call of an activity stands innermost, and has no answer.
fn is_open(top: &Top, activity: &Text) -> bool
    ensures { result ≡ is_open_in_top activity.now top.now }
{
    match top {
        Top::Awaiting {
            activity: own,
            answer: None,
            ..
        } => same_texts(activity, own),
        _ => false,
    }
}

/// Whether the call of an activity stands on a strand, or on one below it, and has no answer. It takes no memory.
pub fn is_open_in(forest: &Forest<Stand>, strand: StrandId, activity: &Text) -> bool
    requires { IsHeld forest.now strand }
    ensures { (b : Branch TheStand) → find forest.now.strands strand ≡ Some b → result ≡ is_open activity.now (node_of b) }
{
    if is_open(stand_of(forest, strand).top.get(), activity) {
        return true;
    }
    let mut number = 0;
    while let Some(child) = child_of(forest, strand, number) {
        if is_open_in(forest, child, activity) {
            return true;
        }
        number += 1;
    }
    false
}

// What stands innermost with an answer, where it is a call.
fn answered(top: Top, reply: CallReply) -> Top
    ensures { result ≡ answered_top reply top }
{
    match top {
        Top::Awaiting {
            running,
            activity,
            request,
            ..
        } => Top::Awaiting {
            running,
            activity,
            request,
            answer: Some(reply),
        },
        other => other,
    }
}

// Puts an answer into the call that stands innermost. It takes no memory.
fn put_answer(top: &mut Boxed<Top>, reply: CallReply)
    ensures { top.new ≡ answered_top reply top.old }
{
    let meanwhile = Top::Done {
        output: Json::null(),
        flow: Flow::Continue,
    };
    let call = top.replace(meanwhile);
    let _ = top.replace(answered(call, reply));
}

// Puts an answer into the call of an activity, where it stands on a strand itself and has none; hands it back elsewhere.
fn answer_here(
    forest: &mut Forest<Stand>,
    strand: StrandId,
    activity: &Text,
    reply: CallReply,
) -> Option<CallReply>
    requires { IsHeld forest.old strand }
    ensures { (b : Branch TheStand) → find forest.old.strands strand ≡ Some b → IsAnswerHere activity.now reply strand b forest.old forest.new result }
{
    if !is_open(stand_of(forest, strand).top.get(), activity) {
        return Some(reply);
    }
    if let Some(stand) = forest.top_mut(strand) {
        put_answer(&mut stand.top, reply);
    }
    None
}

/// Puts an answer into the call of an activity that stands on a strand, or on one below it, and has none; hands it back where there is no
/// such call. It takes no memory.
pub fn answer_in(
    forest: &mut Forest<Stand>,
    strand: StrandId,
    activity: &Text,
    reply: CallReply,
) -> Option<CallReply>
    requires { IsHeld forest.old strand }
    ensures { (b : Branch TheStand) → find forest.old.strands strand ≡ Some b → IsAnswerIn activity.now reply strand b forest.old forest.new result }
{
    let mut reply = answer_here(forest, strand, activity, reply)?;
    let mut number = 0;
    while let Some(child) = child_of(forest, strand, number) {
        reply = answer_in(forest, child, activity, reply)?;
        number += 1;
    }
    Some(reply)
}
