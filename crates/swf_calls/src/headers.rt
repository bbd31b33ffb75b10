// The headers of a message.
ghost use Rattle.std.specs.Prelude.{◌≡◌, ◌++◌, [], codes, IfOk, OnOk, OnErr, option_map};
ghost use Rattle.swf_value.specs.Value.{object, Ascending};
ghost use Rattle.swf_value.specs.Node.{members_of};
ghost use Rattle.swf_calls.specs.Headers.{header_members, headers_in, headers_of, place_in, put_field, with_field};

use std::alloc::{AllocError, Global};
use std::cmp::Ordering;
use std::marker::Model;
use swf_text::{Text, TextBuilder};
use swf_value::{Json, JsonNode, Member};

/// A name and its value.
#[derive(Drop)]
pub struct Header {
    pub name: Text,
    pub value: Text,
}

/// Headers by ascending name, each name once. Contracts see their list.
#[derive(Drop)]
pub struct Headers {
    fields: Vec<Header>,
}

impl Model for Headers {
    ghost use Rattle.std.specs.Prelude.{List};
    ghost use Rattle.std.specs.Coded.{coded_list};
    ghost use Rattle.swf_calls.specs.HeaderCode.{header_code};
    ghost use Rattle.swf_calls.specs.declared.headers.Header.{Header as TheHeader};

    ghost Value = { List TheHeader };

    ghost coded = { coded_list header_code };

    ghost use Rattle.swf_value.specs.Value.{Ascending};
    ghost use Rattle.swf_calls.specs.Headers.{header_members};

    ghost view = { λ h. h.fields.items };

    ghost invariant = { λ h. Ascending (header_members h.fields.items) };
}

impl Headers {
    /// No headers.
    pub fn none(alloc: Global) -> Headers
        ensures { result ≡ [] }
    {
        Headers {
            fields: Vec::new(alloc),
        }
    }

    pub fn as_slice(&self) -> &[Header]
        ensures value { result.now ≡ self.now }
        ensures ascending { Ascending (header_members self.now) }
    {
        &self.fields
    }

    /// The same headers once more. It copies no text.
    pub fn copy(&self, alloc: Global) -> Result<Headers, AllocError>
        ensures { IfOk result (λ headers. headers ≡ self.now) }
    {
        let fields = copy_fields(alloc, &self.fields)?;
        Ok(Headers { fields })
    }

    /// Adds a field. Where its name is there already, its value joins the other behind `, `.
    #[tactic(auto, using(crate::proofs::FieldLemmas::still_ascends))]
    pub fn add(&mut self, alloc: Global, field: Header) -> Result<(), AllocError>
        ensures ok { OnOk result (self.new ≡ with_field field self.old) }
        ensures err { OnErr result (self.new ≡ self.old) }
    {
        add_field(alloc, &mut self.fields, field)
    }

    /// Puts a field there, in the stead of that of its name where there is one.
    #[tactic(auto, using(crate::proofs::FieldLemmas::put_ascends))]
    pub fn put(&mut self, field: Header) -> Result<(), AllocError>
        ensures ok { OnOk result (self.new ≡ put_field field self.old) }
        ensures err { OnErr result (self.new ≡ self.old) }
    {
        put_field(&mut self.fields, field)
    }

    /// The headers that an object's members are, if each of them is a text.
    #[tactic(auto, using(crate::proofs::HeaderLemmas::fields_ascend))]
    pub(crate) fn read(alloc: Global, value: &Json) -> Result<Option<Headers>, AllocError>
        ensures { IfOk result (λ headers. headers ≡ headers_of value.now) }
    {
        let JsonNode::Object(members) = value.node() else {
            return Ok(None);
        };
        let Some(fields) = read_fields(alloc, members.as_slice())? else {
            return Ok(None);
        };
        Ok(Some(Headers { fields }))
    }

    /// The object that has them as its members.
    pub fn json(&self, alloc: Global) -> Result<Json, AllocError>
        ensures { IfOk result (λ value. value ≡ object (header_members self.now)) }
    {
        let members = field_members(alloc, &self.fields)?;
        Json::object(alloc, members)
    }
}

/// Where a name stands among headers, or else where it would stand.
fn place_of(fields: &[Header], name: &Text) -> Result<usize, usize>
    ensures place { result ≡ place_in name.now fields.now }
{
    let mut place = 0;
    'fields: while place < fields.len() {
        match name.cmp(&fields[place].name) {
            Ordering::Less => return Err(place),
            Ordering::Equal => return Ok(place),
            Ordering::Greater => place += 1,
        }
    }
    Err(place)
}

/// Two values as one.
fn joined(alloc: Global, first: &Text, second: &Text) -> Result<Text, AllocError>
    ensures { IfOk result (λ t. t ≡ first.now ++ codes ", " ++ second.now) }
{
    let mut text = TextBuilder::new(alloc);
    text.push_text(first)?;
    text.push_ascii(", ")?;
    text.push_text(second)?;
    text.into_text(alloc)
}

fn add_field(alloc: Global, fields: &mut Vec<Header>, field: Header) -> Result<(), AllocError>
    ensures ok { OnOk result (fields.new.items ≡ with_field field fields.old.items) }
    ensures err { OnErr result (fields.new.items ≡ fields.old.items) }
{
    match place_of(fields, &field.name) {
        Ok(place) => {
            let value = joined(alloc, &fields[place].value, &field.value)?;
            fields[place] = Header {
                name: field.name,
                value,
            };
        }
        Err(place) => fields.insert(place, field)?,
    }
    Ok(())
}

fn put_field(fields: &mut Vec<Header>, field: Header) -> Result<(), AllocError>
    ensures ok { OnOk result (fields.new.items ≡ put_field field fields.old.items) }
    ensures err { OnErr result (fields.new.items ≡ fields.old.items) }
{
    match place_of(fields, &field.name) {
        Ok(place) => fields[place] = field,
        Err(place) => fields.insert(place, field)?,
    }
    Ok(())
}

fn copy_fields(alloc: Global, fields: &[Header]) -> Result<Vec<Header>, AllocError>
    ensures { IfOk result (λ copies. copies.items ≡ fields.now) }
{
    let mut copies = Vec::new(alloc);
    for field in fields {
        let name = field.name.copy()?;
        let value = field.value.copy()?;
        copies.push(Header { name, value })?;
    }
    Ok(copies)
}

/// The headers that members are, if each of them is a text.
fn read_fields(alloc: Global, members: &[Member]) -> Result<Option<Vec<Header>>, AllocError>
    ensures { IfOk result (λ o. option_map (λ fields. fields.items) o ≡ headers_in (members_of members.now)) }
{
    let mut fields = Vec::new(alloc);
    for member in members {
        let JsonNode::Text(text) = member.value.node() else {
            return Ok(None);
        };
        let name = member.name.copy()?;
        let value = text.copy()?;
        fields.push(Header { name, value })?;
    }
    Ok(Some(fields))
}

#[tactic(auto, using(std::proofs::lemmas::Grind::common_steps, crate::proofs::HeaderLemmas::members_of_fields))]
fn field_members(alloc: Global, fields: &[Header]) -> Result<Vec<Member>, AllocError>
    ensures { IfOk result (λ members. members_of members.items ≡ header_members fields.now) }
{
    let mut members = Vec::new(alloc);
    for field in fields {
        let name = field.name.copy()?;
        let value = Json::text(field.value.copy()?);
        members.push(Member { name, value })?;
    }
    Ok(members)
}
