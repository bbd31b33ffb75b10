// What tasks listen to, and the cases of a switch.
ghost use Rattle.std.specs.Prelude.{◌≡◌, ◌∷◌, [], IfOk, Some, None, codes};
ghost use Rattle.swf_value.specs.Members.{member_at};
ghost use Rattle.swf_value.specs.Node.{items_of, members_of};
ghost use Rattle.swf_reader.specs.Parts.{part, expression_in, template_at, correlations_in, correlations_of, filter_in, filters_in, filters_of, heard_in, listen_in, case_in, case_of_members, case_of, cases_in, cases_of};

use crate::parts::{expression_at, expression_in, flow_at, part, text_part};
use crate::template::{named_templates_of, template_at};
use std::alloc::{AllocError, Global};
use swf_document::{Case, Correlation, Filter, ListenMode, ListenSpec, Listing};
use swf_shapes::field;
use swf_text::{Text, is_word};
use swf_value::{Json, JsonNode, Member};

fn correlations_in(alloc: Global, members: &[Member]) -> Result<Vec<Correlation>, AllocError>
    ensures { IfOk result (λ v. v.items ≡ correlations_in (members_of members.now)) }
{
    let mut correlations = Vec::new(alloc);
    for member in members {
        let correlation = correlation_in(alloc, member)?;
        correlations.push(correlation)?;
    }
    Ok(correlations)
}

// What has to agree, by the name of its member.
fn correlation_in(alloc: Global, member: &Member) -> Result<Correlation, AllocError>
    ensures { IfOk result (λ c. c ≡ record { name = member.now.name; from = expression_in (part (codes "from") member.now.value); expect = template_at (codes "expect") member.now.value }) }
{
    let name = member.name.copy()?;
    let nothing = Json::null();
    let from = expression_in(alloc, part(&member.value, "from", &nothing))?;
    let expect = template_at(alloc, &member.value, "expect")?;
    Ok(Correlation { name, from, expect })
}

fn correlations_of(alloc: Global, value: &Json) -> Result<Listing<Correlation>, AllocError>
    ensures { IfOk result (λ cs. cs ≡ correlations_of value.now) }
{
    let correlations = match value.node() {
        JsonNode::Object(members) => correlations_in(alloc, members.as_slice())?,
        _ => Vec::new(alloc),
    };
    Listing::of(alloc, correlations)
}

fn filter_in(alloc: Global, value: &Json) -> Result<Filter, AllocError>
    ensures { IfOk result (λ f. f ≡ filter_in value.now) }
{
    let with = named_templates_of(alloc, value, "with")?;
    let nothing = Json::null();
    let correlate = correlations_of(alloc, part(value, "correlate", &nothing))?;
    Ok(Filter { with, correlate })
}

fn filters_in(alloc: Global, items: &[Json]) -> Result<Vec<Filter>, AllocError>
    ensures { IfOk result (λ v. v.items ≡ filters_in (items_of items.now)) }
{
    let mut filters = Vec::new(alloc);
    for item in items {
        let filter = filter_in(alloc, item)?;
        filters.push(filter)?;
    }
    Ok(filters)
}

fn filters_of(alloc: Global, value: &Json) -> Result<Listing<Filter>, AllocError>
    ensures { IfOk result (λ fs. fs ≡ filters_of value.now) }
{
    let filters = match value.node() {
        JsonNode::List(items) => filters_in(alloc, items.as_slice())?,
        _ => Vec::new(alloc),
    };
    Listing::of(alloc, filters)
}

fn one_filter(alloc: Global, value: &Json) -> Result<Listing<Filter>, AllocError>
    ensures { IfOk result (λ fs. fs ≡ filter_in value.now ∷ []) }
{
    let mut filters = Vec::new(alloc);
    filters.push(filter_in(alloc, value)?)?;
    Listing::of(alloc, filters)
}

// Which events are heard: one, any of some, or all of them.
fn heard_in(alloc: Global, envelope: bool, to: &Json) -> Result<ListenSpec, AllocError>
    ensures { IfOk result (λ l. l ≡ heard_in envelope to.now (member_at (codes "one") to.now) (member_at (codes "any") to.now)) }
{
    if let Some(one) = field(to, "one") {
        let filters = one_filter(alloc, one)?;
        return Ok(ListenSpec {
            mode: ListenMode::One,
            filters,
            envelope,
        });
    }
    if let Some(any) = field(to, "any") {
        let filters = filters_of(alloc, any)?;
        return Ok(ListenSpec {
            mode: ListenMode::Any,
            filters,
            envelope,
        });
    }
    let nothing = Json::null();
    let filters = filters_of(alloc, part(to, "all", &nothing))?;
    Ok(ListenSpec {
        mode: ListenMode::All,
        filters,
        envelope,
    })
}

/// What a task listens to.
pub fn listen_in(alloc: Global, value: &Json) -> Result<ListenSpec, AllocError>
    ensures { IfOk result (λ l. l ≡ listen_in value.now) }
{
    let read = text_part(alloc, value, "read")?;
    let envelope = is_word(&read, "envelope");
    let nothing = Json::null();
    heard_in(alloc, envelope, part(value, "to", &nothing))
}

fn case_in(alloc: Global, name: &Text, value: &Json) -> Result<Case, AllocError>
    ensures { IfOk result (λ c. c ≡ case_in name.now value.now) }
{
    let name = name.copy()?;
    let cond = expression_at(alloc, value, "when")?;
    let flow = flow_at(alloc, value)?;
    Ok(Case { name, cond, flow })
}

// The one case of an item, which is an object of one member.
fn case_of(alloc: Global, item: &Json) -> Result<Option<Case>, AllocError>
    ensures { IfOk result (λ c. c ≡ case_of item.now) }
{
    match item.node() {
        JsonNode::Object(members) => case_of_members(alloc, members.as_slice()),
        _ => Ok(None),
    }
}

#[tactic(auto, using(std::proofs::lemmas::Grind::common_steps, crate::proofs::ReadLemmas::one_case, crate::proofs::ReadLemmas::not_one_case))]
fn case_of_members(alloc: Global, members: &[Member]) -> Result<Option<Case>, AllocError>
    ensures { IfOk result (λ c. c ≡ case_of_members (members_of members.now)) }
{
    match members {
        [member] => Ok(Some(case_in(alloc, &member.name, &member.value)?)),
        _ => Ok(None),
    }
}

fn cases_in(alloc: Global, items: &[Json]) -> Result<Vec<Case>, AllocError>
    ensures { IfOk result (λ v. v.items ≡ cases_in (items_of items.now)) }
{
    let mut cases = Vec::new(alloc);
    for item in items {
        if let Some(case) = case_of(alloc, item)? {
            cases.push(case)?;
        }
    }
    Ok(cases)
}

/// The cases of a switch.
pub fn cases_of(alloc: Global, value: &Json) -> Result<Listing<Case>, AllocError>
    ensures { IfOk result (λ cs. cs ≡ cases_of value.now) }
{
    let cases = match value.node() {
        JsonNode::List(items) => cases_in(alloc, items.as_slice())?,
        _ => Vec::new(alloc),
    };
    Listing::of(alloc, cases)
}
