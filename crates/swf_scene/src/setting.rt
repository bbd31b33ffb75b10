// What stays of an instance while its tasks run.
ghost use Rattle.std.specs.Prelude.{◌≡◌, ◌++◌, ◌∷◌, [], IfOk};
ghost use Rattle.std.specs.Coded.{Coded-set};
ghost use Rattle.swf_value.specs.ValueCode.{value_code};
ghost use Rattle.swf_meaning.specs.Line.{epoch, workflow_value};

use std::alloc::{AllocError, Global};
use swf_catalog::{SharedDocument, SubWorkflow, Words};
use swf_duration::Moment;
use swf_text::Text;
use swf_value::{Json, Member};

/// An instance's document, its id, when it started, the raw input of its workflow, `$workflow`, which tells these three, its
/// context, and the number of its next event.
#[derive(Drop)]
pub struct Setting {
    pub document: SharedDocument,
    pub id: Text,
    pub started: Moment,
    pub input: Json,
    pub workflow: Json,
    pub context: Json,
    pub number: u64,
    ghost told: { workflow ≡ workflow_value id started input } by { Coded-set value_code workflow (workflow_value id started input) },
}

impl Setting {
    ghost use Rattle.swf_value.specs.Value.{null};
    ghost use Rattle.swf_meaning.specs.Node.{Node};
    ghost use Rattle.swf_scene.specs.Setting.{instance_of, setting_line};

    /// That of an instance that has just begun.
    pub fn new(
        alloc: Global,
        document: SharedDocument,
        id: Text,
        input: Json,
        started: Moment,
    ) -> Result<Setting, AllocError>
        ensures { IfOk result (λ s. (n : Node) → instance_of s n ≡ record { id = id; document = document; input = input; started = started; context = null; node = n; number = 0 }) }
    {
        let workflow = workflow_value(alloc, document.get().words(), &id, started, &input)?;
        Ok(Setting {
            document,
            id,
            started,
            input,
            workflow,
            context: Json::null(),
            number: 0,
        })
    }

    /// That of a sub-workflow of the instance.
    pub fn of_sub(&self, alloc: Global, sub: &SubWorkflow) -> Result<Setting, AllocError>
        ensures line { IfOk result (λ s. setting_line s ≡ record (setting_line self.now) { document = sub.now.document; input = sub.now.input; context = sub.now.context }) }
        ensures number { IfOk result (λ s. s.number ≡ self.now.number) }
    {
        let SubWorkflow {
            document,
            input,
            context,
        } = sub;
        let words = document.get().words();
        let workflow = workflow_value(alloc, words, &self.id, self.started, input)?;
        Ok(Setting {
            document: document.copy()?,
            id: self.id.copy()?,
            started: self.started,
            input: input.copy()?,
            workflow,
            context: context.copy()?,
            number: self.number,
        })
    }

    /// The same once more. It copies no values.
    pub fn copy(&self) -> Result<Setting, AllocError>
        ensures { IfOk result (λ s. s ≡ self.now) }
    {
        Ok(Setting {
            document: self.document.copy()?,
            id: self.id.copy()?,
            started: self.started,
            input: self.input.copy()?,
            workflow: self.workflow.copy()?,
            context: self.context.copy()?,
            number: self.number,
        })
    }
}

// Adds a member whose name is shared.
pub(crate) fn push_named(
    members: &mut Vec<Member>,
    name: &Text,
    value: Json,
) -> Result<(), AllocError>
    ensures { IfOk result (λ _. members.new.items ≡ members.old.items ++ record { name = name.now; value = value } ∷ []) }
{
    let name = name.copy()?;
    members.push(Member { name, value })?;
    Ok(())
}

// A moment as an object.
fn epoch(alloc: Global, words: &Words, moment: Moment) -> Result<Json, AllocError>
    ensures { IfOk result (λ v. v ≡ epoch moment) }
{
    let mut inner = Vec::with_capacity(alloc, 1)?;
    let number = Json::int(moment.milliseconds() as i64);
    push_named(&mut inner, words.milliseconds(), number)?;
    let inner = Json::object(alloc, inner)?;
    let mut members = Vec::with_capacity(alloc, 1)?;
    push_named(&mut members, words.epoch(), inner)?;
    Json::object(alloc, members)
}

// `$workflow`.
fn workflow_value(
    alloc: Global,
    words: &Words,
    id: &Text,
    started: Moment,
    input: &Json,
) -> Result<Json, AllocError>
    ensures { IfOk result (λ v. v ≡ workflow_value id.now started input.now) }
{
    let mut members = Vec::with_capacity(alloc, 3)?;
    push_named(&mut members, words.id(), Json::text(id.copy()?))?;
    push_named(&mut members, words.input(), input.copy()?)?;
    push_named(
        &mut members,
        words.started_at(),
        epoch(alloc, words, started)?,
    )?;
    Json::object(alloc, members)
}
