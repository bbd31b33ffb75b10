// Tasks, which hold lists of tasks.
ghost use Rattle.std.specs.Prelude.{◌≡◌, ◌∷◌, ◌++◌, [], IfOk, codes, decimal, IsTrue, option_map, unwrap_or};
ghost use Rattle.swf_text.specs.Same.{is_ascii};
ghost use Rattle.swf_value.specs.Value.{object};
ghost use Rattle.swf_value.specs.Node.{items_of, members_of};
ghost use Rattle.swf_document.specs.declared.common.Flow.TheVariants.{Continue};
ghost use Rattle.swf_shapes.specs.declared.shape.Task.TheVariants.{For, Fork, Try};
ghost use Rattle.swf_document.specs.Task.{task};
ghost use Rattle.swf_document.specs.TaskNode.{handler_of as held_handler, kind_of, task_of, tasks_of};
ghost use Rattle.swf_reader.specs.Parts.{common_in, flow_at, transform_at};
ghost use Rattle.swf_reader.specs.Reads.{keyword_in, task_of_seen, handler_of, named_of, added, variable_at, loop_in, caught_kind, plain_kind, tasks_in, items_in, item_in, task_in, kind_in, tasks_at, tasks_under, tasks_inside, functions_in, functions_of};

use crate::call::{callee_in, run_in};
use crate::error::{duration_in, errors_in, raised_in, retry_at};
use crate::event::{cases_of, listen_in};
use crate::parts::{expression_at, expression_in, flag_at, flow_at, part, text_in};
use crate::template::{template_in, template_part, transform_at};
use std::alloc::{AllocError, Global};
use swf_document::{Common, Flow, ForSpec, ForkSpec, Kind, Named, Task, Tasks, Template, TrySpec};
use swf_shapes::{Seen, Task as Word, child, field, has, keyword_task, position, seen_in};
use swf_text::{Place, Text, word};
use swf_value::{Json, JsonNode, Member};

// What a task makes of its input, its output and its context.
#[derive(Drop)]
struct Transforms {
    input_from: Option<Template>,
    output_as: Option<Template>,
    export_as: Option<Template>,
}

fn transforms_in(alloc: Global, value: &Json) -> Result<Transforms, AllocError>
    ensures input { IfOk result (λ t. t.input_from ≡ transform_at (codes "input") (codes "from") value.now) }
    ensures output { IfOk result (λ t. t.output_as ≡ transform_at (codes "output") (codes "as") value.now) }
    ensures export { IfOk result (λ t. t.export_as ≡ transform_at (codes "export") (codes "as") value.now) }
{
    let input_from = transform_at(alloc, value, "input", "from")?;
    let output_as = transform_at(alloc, value, "output", "as")?;
    let export_as = transform_at(alloc, value, "export", "as")?;
    Ok(Transforms {
        input_from,
        output_as,
        export_as,
    })
}

fn common_in(alloc: Global, place: &Place, value: &Json) -> Result<Common, AllocError>
    ensures { IfOk result (λ c. c ≡ common_in place.now value.now) }
{
    let place = place.pointed(alloc)?;
    let cond = expression_at(alloc, value, "if")?;
    let flow = flow_or_next(alloc, value)?;
    let Transforms {
        input_from,
        output_as,
        export_as,
    } = transforms_in(alloc, value)?;
    Ok(Common {
        cond,
        input_from,
        output_as,
        export_as,
        flow,
        place,
    })
}

fn flow_or_next(alloc: Global, value: &Json) -> Result<Flow, AllocError>
    ensures { IfOk result (λ f. f ≡ unwrap_or (flow_at value.now) Continue) }
{
    match flow_at(alloc, value)? {
        Some(flow) => Ok(flow),
        None => Ok(Flow::Continue),
    }
}

// The keyword of a task.
fn keyword_in(value: &Json, members: &[Member]) -> Word
    requires { value.now ≡ object (members_of members.now) }
    ensures { result ≡ keyword_in (members_of members.now) }
{
    task_of_seen(seen_in(has(value, "for"), members), value, members)
}

// The task that a keyword makes of an object.
fn task_of_seen(seen: Seen, value: &Json, members: &[Member]) -> Word
    requires { value.now ≡ object (members_of members.now) }
    ensures { result ≡ task_of_seen seen (members_of members.now) }
{
    match seen {
        Seen::One(keyword) => keyword_task(keyword, value, members),
        Seen::Nothing => Word::Set,
        Seen::Several => Word::Set,
    }
}

// The name of a variable, or the name that it has where none is given.
fn variable_at(alloc: Global, value: &Json, name: &str, usual: &str) -> Result<Text, AllocError>
    requires name { IsTrue (is_ascii name.now) }
    requires usual { IsTrue (is_ascii usual.now) }
    ensures { IfOk result (λ t. t ≡ variable_at name.now usual.now value.now) }
{
    match field(value, name) {
        Some(found) => text_in(alloc, found),
        None => word(alloc, usual),
    }
}

// What a task does that holds no tasks.
fn plain_kind(alloc: Global, keyword: Word, value: &Json) -> Result<Kind, AllocError>
    ensures { IfOk result (λ k. kind_of k ≡ plain_kind keyword value.now) }
{
    let nothing = Json::null();
    match keyword {
        Word::HttpCall | Word::FunctionCall | Word::OtherCall => {
            Ok(Kind::Call(callee_in(alloc, value)?))
        }
        Word::Emit => {
            let event = part(part(value, "emit", &nothing), "event", &nothing);
            Ok(Kind::Emit(template_in(alloc, part(event, "with", &nothing))?))
        }
        Word::Listen => Ok(Kind::Listen(listen_in(alloc, part(value, "listen", &nothing))?)),
        Word::Raise => {
            let error = part(part(value, "raise", &nothing), "error", &nothing);
            Ok(Kind::Raise(raised_in(alloc, error)?))
        }
        Word::Run => {
            let workflow = part(part(value, "run", &nothing), "workflow", &nothing);
            Ok(Kind::Run(run_in(alloc, workflow)?))
        }
        Word::Switch => Ok(Kind::Switch(cases_of(alloc, part(value, "switch", &nothing))?)),
        Word::Wait => Ok(Kind::Wait(duration_in(alloc, part(value, "wait", &nothing))?)),
        Word::Set | Word::Do | Word::For | Word::Fork | Word::Try => {
            Ok(Kind::Set(template_part(alloc, value, "set")?))
        }
    }
}

// A `try` of these tasks, with what the value of its `catch` says, and the tasks that then run.
fn caught_kind(
    alloc: Global,
    catch: &Json,
    tasks: Tasks,
    handler: Option<Tasks>,
) -> Result<Kind, AllocError>
    ensures { IfOk result (λ k. kind_of k ≡ caught_kind catch.now tasks (held_handler handler)) }
{
    let name = variable_at(alloc, catch, "as", "error")?;
    let cond = expression_at(alloc, catch, "when")?;
    let except = expression_at(alloc, catch, "exceptWhen")?;
    let errors = {
        let nothing = Json::null();
        let errors = part(catch, "errors", &nothing);
        errors_in(alloc, part(errors, "with", &nothing))?
    };
    let retry = retry_at(alloc, catch)?;
    Ok(Kind::Try(TrySpec {
        tasks,
        errors,
        name,
        cond,
        except,
        retry,
        handler,
    }))
}

/// The tasks of a list, each an object of one member, with the places where they stand.
#[cycle(tasks)]
pub fn tasks_in(alloc: Global, place: &Place, value: &Json) -> Result<Tasks, AllocError>
    ensures { IfOk result (λ ts. ts ≡ tasks_in place.now value.now) }
{
    match value.node() {
        JsonNode::List(items) => {
            let tasks = items_in(alloc, place, items.as_slice())?;
            Tasks::of(alloc, tasks)
        }
        _ => Tasks::of(alloc, Vec::new(alloc)),
    }
}

#[cycle(tasks)]
#[tactic(auto, using(std::proofs::lemmas::Grind::common_steps, crate::proofs::TaskLemmas::tasks_added, crate::proofs::TaskLemmas::tasks_all))]
fn items_in(alloc: Global, place: &Place, items: &[Json]) -> Result<Vec<Named>, AllocError>
    ensures { IfOk result (λ v. tasks_of v.items ≡ items_in place.now 0 (items_of items.now)) }
{
    let mut tasks = Vec::with_capacity(alloc, items.len())?;
    for (index, item) in items.iter().enumerate() {
        add_task(&mut tasks, item_at(alloc, place, index, item)?)?;
    }
    Ok(tasks)
}

// The task that an item at a position is.
#[cycle(tasks)]
fn item_at(
    alloc: Global,
    place: &Place,
    index: usize,
    item: &Json,
) -> Result<Option<Named>, AllocError>
    ensures { IfOk result (λ o. option_map named_of o ≡ item_in (place.now ++ decimal index ∷ []) item.now) }
{
    let place = child(alloc, place, position(alloc, index)?)?;
    item_in(alloc, &place, item)
}

// The tasks so far, with one more where there is one.
fn add_task(tasks: &mut Vec<Named>, task: Option<Named>) -> Result<(), AllocError>
    ensures { IfOk result (λ _. tasks.new.items ≡ added tasks.old.items task) }
{
    match task {
        Some(task) => {
            tasks.push(task)?;
            Ok(())
        }
        None => Ok(()),
    }
}

#[cycle(tasks)]
#[tactic(auto, using(std::proofs::lemmas::Grind::common_steps, crate::proofs::TaskLemmas::one_item, crate::proofs::TaskLemmas::not_one_item))]
fn item_in(alloc: Global, place: &Place, item: &Json) -> Result<Option<Named>, AllocError>
    ensures { IfOk result (λ o. option_map named_of o ≡ item_in place.now item.now) }
{
    let JsonNode::Object(members) = item.node() else {
        return Ok(None);
    };
    let [member] = members.as_slice() else {
        return Ok(None);
    };
    Ok(Some(named_in(alloc, place, member)?))
}

// The task in a member, with its name.
#[cycle(tasks)]
fn named_in(alloc: Global, place: &Place, member: &Member) -> Result<Named, AllocError>
    ensures name { IfOk result (λ n. n.name ≡ member.now.name) }
    ensures task { IfOk result (λ n. task_of n.task ≡ task_in (place.now ++ member.now.name ∷ []) member.now.value) }
{
    let name = member.name.copy()?;
    let inside = child(alloc, place, member.name.copy()?)?;
    let task = task_in(alloc, &inside, &member.value)?;
    Ok(Named { name, task })
}

#[cycle(tasks)]
fn task_in(alloc: Global, place: &Place, value: &Json) -> Result<Task, AllocError>
    ensures { IfOk result (λ t. task_of t ≡ task_in place.now value.now) }
{
    let common = common_in(alloc, place, value)?;
    let kind = kind_at(alloc, place, value)?;
    Ok(Task { common, kind })
}

// What the task does that a value is.
#[cycle(tasks)]
fn kind_at(alloc: Global, place: &Place, value: &Json) -> Result<Kind, AllocError>
    ensures { IfOk result (λ k. task (common_in place.now value.now) (kind_of k) ≡ task_in place.now value.now) }
{
    match value.node() {
        JsonNode::Object(members) => kind_in(alloc, place, value, members.as_slice()),
        _ => plain_kind(alloc, Word::Set, value),
    }
}

#[cycle(tasks)]
fn kind_in(
    alloc: Global,
    place: &Place,
    value: &Json,
    members: &[Member],
) -> Result<Kind, AllocError>
    requires { value.now ≡ object (members_of members.now) }
    ensures { IfOk result (λ k. kind_of k ≡ kind_in place.now (keyword_in (members_of members.now)) (members_of members.now)) }
{
    let keyword = keyword_in(value, members);
    match keyword {
        Word::Do => Ok(Kind::Do(tasks_at(alloc, place, value, members, "do")?)),
        Word::For => for_kind(alloc, place, value, members),
        Word::Fork => fork_kind(alloc, place, value, members),
        Word::Try => try_kind(alloc, place, value, members),
        Word::HttpCall
        | Word::FunctionCall
        | Word::OtherCall
        | Word::Emit
        | Word::Listen
        | Word::Raise
        | Word::Run
        | Word::Set
        | Word::Switch
        | Word::Wait => plain_kind(alloc, keyword, value),
    }
}

#[cycle(tasks)]
fn for_kind(
    alloc: Global,
    place: &Place,
    value: &Json,
    members: &[Member],
) -> Result<Kind, AllocError>
    requires { value.now ≡ object (members_of members.now) }
    ensures { IfOk result (λ k. kind_of k ≡ kind_in place.now For (members_of members.now)) }
{
    let tasks = tasks_at(alloc, place, value, members, "do")?;
    let nothing = Json::null();
    let turns = part(value, "for", &nothing);
    let each = variable_at(alloc, turns, "each", "item")?;
    let items = expression_in(alloc, part(turns, "in", &nothing))?;
    let at = variable_at(alloc, turns, "at", "index")?;
    let guard = expression_at(alloc, value, "while")?;
    Ok(Kind::For(ForSpec {
        each,
        items,
        at,
        guard,
        tasks,
    }))
}

#[cycle(tasks)]
fn fork_kind(
    alloc: Global,
    place: &Place,
    value: &Json,
    members: &[Member],
) -> Result<Kind, AllocError>
    requires { value.now ≡ object (members_of members.now) }
    ensures { IfOk result (λ k. kind_of k ≡ kind_in place.now Fork (members_of members.now)) }
{
    let nothing = Json::null();
    let compete = flag_at(part(value, "fork", &nothing), "compete");
    let branches = tasks_under(alloc, place, value, members, "fork", "branches")?;
    Ok(Kind::Fork(ForkSpec { compete, branches }))
}

#[cycle(tasks)]
fn try_kind(
    alloc: Global,
    place: &Place,
    value: &Json,
    members: &[Member],
) -> Result<Kind, AllocError>
    requires { value.now ≡ object (members_of members.now) }
    ensures { IfOk result (λ k. kind_of k ≡ kind_in place.now Try (members_of members.now)) }
{
    let nothing = Json::null();
    let catch = part(value, "catch", &nothing);
    let tasks = tasks_at(alloc, place, value, members, "try")?;
    let handler = handler_in(alloc, place, value, members, has(catch, "do"))?;
    caught_kind(alloc, catch, tasks, handler)
}

#[cycle(tasks)]
fn handler_in(
    alloc: Global,
    place: &Place,
    value: &Json,
    members: &[Member],
    there: bool,
) -> Result<Option<Tasks>, AllocError>
    requires { value.now ≡ object (members_of members.now) }
    ensures { IfOk result (λ h. held_handler h ≡ handler_of there (tasks_under place.now (codes "catch") (codes "do") (members_of members.now))) }
{
    if !there {
        return Ok(None);
    }
    let tasks = tasks_under(alloc, place, value, members, "catch", "do")?;
    Ok(Some(tasks))
}

/// The tasks in a member.
#[cycle(tasks)]
#[tactic(auto, using(crate::proofs::TaskLemmas::tasks_at_some, crate::proofs::TaskLemmas::tasks_at_none, crate::proofs::TaskLemmas::member_weighs))]
fn tasks_at(
    alloc: Global,
    place: &Place,
    value: &Json,
    members: &[Member],
    name: &str,
) -> Result<Tasks, AllocError>
    requires object { value.now ≡ object (members_of members.now) }
    requires ascii { IsTrue (is_ascii name.now) }
    ensures { IfOk result (λ ts. ts ≡ tasks_at place.now name.now (members_of members.now)) }
{
    let Some(found) = field(value, name) else {
        return Tasks::of(alloc, Vec::new(alloc));
    };
    let place = child(alloc, place, word(alloc, name)?)?;
    tasks_in(alloc, &place, found)
}

/// The tasks in a member of a member.
#[cycle(tasks)]
#[tactic(auto, using(crate::proofs::TaskLemmas::tasks_under_some, crate::proofs::TaskLemmas::tasks_under_none, crate::proofs::TaskLemmas::member_weighs))]
fn tasks_under(
    alloc: Global,
    place: &Place,
    value: &Json,
    members: &[Member],
    name: &str,
    inner: &str,
) -> Result<Tasks, AllocError>
    requires object { value.now ≡ object (members_of members.now) }
    requires name { IsTrue (is_ascii name.now) }
    requires inner { IsTrue (is_ascii inner.now) }
    ensures { IfOk result (λ ts. ts ≡ tasks_under place.now name.now inner.now (members_of members.now)) }
{
    let Some(holder) = field(value, name) else {
        return Tasks::of(alloc, Vec::new(alloc));
    };
    let place = child(alloc, place, word(alloc, name)?)?;
    tasks_inside(alloc, &place, holder, inner)
}

// The tasks in a member of a value, which may be no object.
#[cycle(tasks)]
fn tasks_inside(alloc: Global, place: &Place, value: &Json, name: &str) -> Result<Tasks, AllocError>
    requires { IsTrue (is_ascii name.now) }
    ensures { IfOk result (λ ts. ts ≡ tasks_inside place.now name.now value.now) }
{
    match value.node() {
        JsonNode::Object(members) => tasks_at(alloc, place, value, members.as_slice(), name),
        _ => Tasks::of(alloc, Vec::new(alloc)),
    }
}

#[tactic(auto, using(std::proofs::lemmas::Grind::common_steps, crate::proofs::TaskLemmas::tasks_push, crate::proofs::TaskLemmas::tasks_all))]
fn functions_in(alloc: Global, place: &Place, members: &[Member]) -> Result<Vec<Named>, AllocError>
    ensures { IfOk result (λ v. tasks_of v.items ≡ functions_in place.now (members_of members.now)) }
{
    let mut functions = Vec::new(alloc);
    for member in members {
        let function = named_in(alloc, place, member)?;
        functions.push(function)?;
    }
    Ok(functions)
}

/// The functions of a document.
pub fn functions_of(alloc: Global, place: &Place, value: &Json) -> Result<Tasks, AllocError>
    ensures { IfOk result (λ ts. ts ≡ functions_of place.now value.now) }
{
    match value.node() {
        JsonNode::Object(members) => {
            let functions = functions_in(alloc, place, members.as_slice())?;
            Tasks::of(alloc, functions)
        }
        _ => Tasks::of(alloc, Vec::new(alloc)),
    }
}
