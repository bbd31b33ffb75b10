// What replies come to.
ghost use Rattle.std.specs.Prelude.{◌≡◌, ◌<◌, ◌^◌, IfOk, IsTrue};
ghost use Rattle.swf_text.specs.Same.{is_ascii};
ghost use Rattle.swf_value.specs.Value.{InRange};
ghost use Rattle.swf_make.specs.Totals.{amount_of, is_completed, is_text, line_of, nothing, number_in, number_of, totals_line, with_reply, with_report};

use std::alloc::{AllocError, Global};
use std::marker::Model;
use swf_protocol::Reply;
use swf_text::is_word;
use swf_value::{Json, JsonNode};

/// How many replies say that an instance was started, how many report one that is completed, and the sum of `n` in what those put out.
#[derive(Drop)]
pub struct Totals {
    completed: u64,
    started: u64,
    total: i128,
}

impl Model for Totals {
    ghost use Rattle.swf_make.specs.Totals.{Totals, totals_code, IsBounded};

    ghost Value = { Totals };

    ghost coded = { totals_code };

    ghost view = { λ t. record { completed = t.completed; started = t.started; total = t.total } };

    ghost invariant = { λ t. IsBounded t.completed t.total };
}

impl Totals {
    /// Of no reply.
    pub fn new() -> Totals
        ensures nothing { result ≡ nothing }
    {
        Totals {
            completed: 0,
            started: 0,
            total: 0,
        }
    }

    /// Adds a reply. One that neither says that an instance was started nor reports one that is completed changes nothing, and one that put
    /// out no number under `n` adds 0.
    pub fn add(&mut self, reply: &Reply)
        requires completed { self.old.completed < 2 ^ 62 }
        requires started { self.old.started < 2 ^ 62 }
        ensures totals { self.new ≡ with_reply self.old reply.now }
    {
        match reply {
            Reply::Started(_) => self.started += 1,
            Reply::Report(report) => self.add_report(report),
            _ => {}
        }
    }

    // Adds a report.
    fn add_report(&mut self, report: &Json)
        requires completed { self.old.completed < 2 ^ 62 }
        ensures totals { self.new ≡ with_report self.old report.now }
    {
        if is_completed(report) {
            self.completed += 1;
            self.total += i128::from(amount_of(report));
        }
    }

    /// The line that tells them, with its newline.
    pub fn line(&self, alloc: Global) -> Result<Vec<u8>, AllocError>
        ensures line { IfOk result (λ line. line.items ≡ totals_line self.now) }
    {
        totals_line(alloc, self.completed, self.started, self.total)
    }
}

// The line of some totals, with its newline.
fn totals_line(
    alloc: Global,
    completed: u64,
    started: u64,
    total: i128,
) -> Result<Vec<u8>, AllocError>
    ensures line { IfOk result (λ line. line.items ≡ line_of completed started total) }
{
    let line = format!(in alloc;
        "{{\"completed\":{completed},\"started\":{started},\"total\":{total}}}\n"
    )?;
    Ok(line.into_bytes())
}

// Whether a report is of an instance that is completed.
fn is_completed(report: &Json) -> bool
    ensures completed { result ≡ is_completed report.now }
{
    match report.member("status") {
        Some(status) => is_text(status, "completed"),
        None => false,
    }
}

// Whether a value is the text of an ASCII word.
fn is_text(value: &Json, word: &str) -> bool
    requires ascii { IsTrue (is_ascii word.now) }
    ensures text { result ≡ is_text word.now value.now }
{
    match value.node() {
        JsonNode::Text(text) => is_word(text, word),
        _ => false,
    }
}

// The number that a report's output has under `n`; 0 where there is none.
fn amount_of(report: &Json) -> i64
    ensures amount { result ≡ amount_of report.now }
    ensures in_range { InRange result }
{
    match report.member("output") {
        Some(output) => number_in(output),
        None => 0,
    }
}

// The number that an output has under `n`; 0 where there is none.
fn number_in(output: &Json) -> i64
    ensures number { result ≡ number_in output.now }
    ensures in_range { InRange result }
{
    match output.member("n") {
        Some(number) => number_of(number),
        None => 0,
    }
}

// The number that a value is; 0 where it is none.
fn number_of(value: &Json) -> i64
    ensures number { result ≡ number_of value.now }
    ensures in_range { InRange result }
{
    match value.node() {
        JsonNode::Int(number) => *number,
        _ => 0,
    }
}
