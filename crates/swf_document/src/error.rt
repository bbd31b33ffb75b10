// Errors as documents write them, as they are raised, and as they are caught (DSL 1.0.0, reference, "Error").
ghost use Rattle.std.specs.Prelude.{◌≡◌, IfOk, IsTrue, option_map};
ghost use Rattle.swf_text.specs.Same.{is_ascii};
ghost use Rattle.swf_document.specs.Errors.{kind_word, kind_status, text_matches, status_matches, matches};

use crate::template::Template;
use std::alloc::AllocError;
use swf_text::{Text, same_texts};

/// An error that is filled in when it is raised.
#[derive(Drop)]
pub struct ErrorSpec {
    pub uri: Template,
    pub status: u16,
    pub title: Option<Template>,
    pub detail: Option<Template>,
    pub instance: Option<Template>,
}

/// The error that a `raise` raises.
#[derive(Drop)]
pub enum ErrorRef {
    /// The one of this name in the document.
    Named(Text),
    Written(ErrorSpec),
}

/// Which errors a `catch` catches: those that have each member that is given.
#[derive(Drop)]
pub struct ErrorFilter {
    pub uri: Option<Text>,
    pub status: Option<u16>,
    pub instance: Option<Text>,
    pub title: Option<Text>,
    pub detail: Option<Text>,
}

/// An error that was raised (RFC 9457, "Members of a Problem Details Object").
#[derive(Drop)]
pub struct Problem {
    pub uri: Text,
    pub status: u16,
    pub title: Option<Text>,
    pub detail: Option<Text>,
    pub instance: Option<Text>,
}

/// A standard kind of error.
#[derive(Clone, Copy, Debug, PartialEq, Eq)]
pub enum ErrorKind {
    Configuration,
    Validation,
    Expression,
    Authentication,
    Authorization,
    Timeout,
    Communication,
    Runtime,
}

impl ErrorKind {
    /// The word by which it is written.
    pub fn word(self) -> &'static str
        ensures word { result.now ≡ kind_word self }
        ensures ascii { IsTrue (is_ascii result.now) }
    {
        match self {
            ErrorKind::Configuration => "configuration",
            ErrorKind::Validation => "validation",
            ErrorKind::Expression => "expression",
            ErrorKind::Authentication => "authentication",
            ErrorKind::Authorization => "authorization",
            ErrorKind::Timeout => "timeout",
            ErrorKind::Communication => "communication",
            ErrorKind::Runtime => "runtime",
        }
    }

    /// The status of its errors.
    pub fn status(self) -> u16
        ensures { result ≡ kind_status self }
    {
        match self {
            ErrorKind::Configuration | ErrorKind::Validation | ErrorKind::Expression => 400,
            ErrorKind::Authentication => 401,
            ErrorKind::Authorization => 403,
            ErrorKind::Timeout => 408,
            ErrorKind::Communication | ErrorKind::Runtime => 500,
        }
    }
}

impl Problem {
    /// The same error once more. It copies no characters.
    pub fn copy(&self) -> Result<Problem, AllocError>
        ensures { IfOk result (λ problem. problem ≡ self.now) }
    {
        let uri = self.uri.copy()?;
        let title = copy_given(&self.title)?;
        let detail = copy_given(&self.detail)?;
        let instance = copy_given(&self.instance)?;
        Ok(Problem {
            uri,
            status: self.status,
            title,
            detail,
            instance,
        })
    }
}

/// The same text once more, where there is one.
fn copy_given(text: &Option<Text>) -> Result<Option<Text>, AllocError>
    ensures { IfOk result (λ t. t ≡ text.now) }
{
    match text {
        Some(text) => Ok(Some(text.copy()?)),
        None => Ok(None),
    }
}

/// Whether an error has each member that the filter gives. It takes no memory.
pub fn matches_filter(filter: &ErrorFilter, problem: &Problem) -> bool
    ensures { result ≡ matches filter.now problem.now }
{
    text_matches(&filter.uri, Some(&problem.uri))
        && status_matches(filter.status, problem.status)
        && text_matches(&filter.instance, problem.instance.as_ref())
        && text_matches(&filter.title, problem.title.as_ref())
        && text_matches(&filter.detail, problem.detail.as_ref())
}

fn text_matches(wanted: &Option<Text>, text: Option<&Text>) -> bool
    ensures { result ≡ text_matches wanted.now (option_map (λ t. t.now) text.entry) }
{
    match wanted {
        None => true,
        Some(wanted) => match text {
            None => false,
            Some(text) => same_texts(wanted, text),
        },
    }
}

fn status_matches(wanted: Option<u16>, status: u16) -> bool
    ensures { result ≡ status_matches wanted status }
{
    match wanted {
        None => true,
        Some(wanted) => wanted == status,
    }
}
