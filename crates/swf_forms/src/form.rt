// The forms of the texts in a document.
ghost use Rattle.std.specs.Prelude.{◌≡◌, ◌==◌, ◌-◌, ◌≤◌, List, ℕ, IfOk, IsTrue, Option, Some, None, map, length, codes, drop, take, is_some, not, ◌||◌};
ghost use Rattle.std.specs.List.{list_all, list_any, position_or_len, starts_with};
ghost use Rattle.std.specs.Str.{encode_utf8_all};
ghost use Rattle.swf_text.specs.Same.{same, is_ascii};
ghost use Rattle.swf_expr.specs.Name.{is_name, is_word as is_name_word, is_keyword, starts_name, goes_on_name};
ghost use Rattle.swf_forms.specs.declared.form.Brace.TheVariants.{Outside};
ghost use Rattle.swf_document.specs.declared.fault.FaultKind.TheVariants.{BadText};
ghost use Rattle.swf_forms.specs.declared.form.Form.TheVariants.{Callee, Expression, Endpoint};
ghost use Rattle.swf_forms.specs.Expression.{parses, is_version};
ghost use Rattle.swf_forms.specs.Forms.{is_dsl, is_label_end, is_label_char, is_label, is_blank, is_mark, after_blanks, end_of, trimmed, is_enclosed, inner, bare, is_like, method_of, reserved, is_variable, brace_after, is_outside, brace_in, is_pattern, unless, choice, enclosed_fault, text_verdict};

use crate::expression::{is_version, parses};
use std::alloc::{AllocError, Global};
use swf_calls::Method;
use swf_document::FaultKind;
use swf_text::{Text, all_digits, is_digit, is_lower, is_word};

/// The form of a text.
#[derive(Clone, Copy)]
pub enum Form {
    /// Any text.
    Plain,
    /// The version of the language.
    Dsl,
    /// A name of a workflow or its namespace.
    Label,
    /// A version of a workflow.
    Version,
    /// A version of a workflow, or the word for the latest.
    VersionOrLatest,
    /// A name that expressions may use.
    Variable,
    Method,
    Language,
    Mode,
    /// What a call gives.
    Output,
    /// What of an event is read.
    Read,
    /// What a call calls.
    Callee,
    /// An expression, with or without `${` and `}` round it.
    Expression,
    /// A constant, or an expression between `${` and `}`.
    Template,
    /// An expression between `${` and `}`.
    Enclosed,
    /// The pattern of a URI, or an expression between `${` and `}`.
    Endpoint,
}

/// Where a pattern stands: outside of braces, at the start of a name, in it, or past a fault.
#[derive(Clone, Copy)]
pub enum Brace {
    Outside,
    Opened,
    Named,
    Broken,
}

/// `1.0.` and digits.
fn is_dsl(bytes: &[u8]) -> bool
    ensures { result ≡ is_dsl bytes.now }
{
    bytes.starts_with(b"1.0.") && bytes.len() > 4 && all_digits(&bytes[4..])
}

fn is_label_end(byte: u8) -> bool
    ensures { result ≡ is_label_end byte }
{
    is_lower(byte) || is_digit(byte)
}

fn is_label_char(byte: u8) -> bool
    ensures { result ≡ is_label_char byte }
{
    is_label_end(byte) || byte == b'-'
}

fn all_label_chars(bytes: &[u8]) -> bool
    ensures { result ≡ list_all is_label_char bytes.now }
{
    for byte in bytes {
        if !is_label_char(*byte) {
            return false;
        }
    }
    true
}

/// 1 to 63 lower-case letters, digits and `-`, with a letter or digit at both ends.
fn is_label(bytes: &[u8]) -> bool
    ensures { result ≡ is_label bytes.now }
{
    let len = bytes.len();
    len > 0
        && len <= 63
        && all_label_chars(bytes)
        && is_label_end(bytes[0])
        && is_label_end(bytes[len - 1])
}

/// The characters of a text.
pub fn characters(alloc: Global, text: &Text) -> Result<Vec<char>, AllocError>
    ensures { IfOk result (λ v. v.items ≡ text.now) }
{
    text.as_str().chars().collect(alloc)
}

fn is_blank(character: char) -> bool
    ensures { result ≡ is_blank character }
{
    character == ' ' || character == '\t' || character == '\r' || character == '\n'
}

// The place of the first character that is no blank, or the length.
fn first_mark(text: &[char]) -> usize
    ensures place { result ≡ position_or_len is_mark text.now }
    ensures within { result ≤ length text.now }
{
    for (place, character) in text.iter().enumerate() {
        if !is_blank(*character) {
            return place;
        }
    }
    text.len()
}

// The end of the last character that is no blank.
fn end_of(text: &[char]) -> usize
    ensures end { result ≡ end_of text.now }
    ensures within { result ≤ length text.now }
{
    let mut end = 0;
    for (place, character) in text.iter().enumerate() {
        if !is_blank(*character) {
            end = place + 1;
        }
    }
    end
}

/// A text without the blanks at its ends.
pub fn trimmed(text: &[char]) -> &[char]
    ensures { result.now ≡ trimmed text.now }
{
    let start = first_mark(text);
    let text = &text[start..];
    let end = end_of(text);
    &text[..end]
}

/// Whether a trimmed text stands between `${` and `}`.
pub fn is_enclosed(text: &[char]) -> bool
    ensures { result ≡ is_enclosed text.now }
{
    let len = text.len();
    len >= 3 && text[0] == '$' && text[1] == '{' && text[len - 1] == '}'
}

/// What stands between `${` and `}`.
pub fn inner(text: &[char]) -> &[char]
    requires { IsTrue (is_enclosed text.now) }
    ensures { result.now ≡ inner text.now }
{
    let text = &text[..text.len() - 1];
    &text[2..]
}

/// A trimmed text as an expression, with or without `${` and `}` round it.
pub fn bare(text: &[char]) -> &[char]
    ensures { result.now ≡ bare text.now }
{
    if is_enclosed(text) { inner(text) } else { text }
}

fn is_like(text: &Text, word: &str) -> bool
    ensures { result ≡ is_like text.now word.now }
{
    text.as_str().eq_ignore_ascii_case(word)
}

/// The method that a text names, in any case of letters.
pub fn method_of(text: &Text) -> Option<Method>
    ensures { result ≡ method_of text.now }
{
    if is_like(text, "get") {
        Some(Method::Get)
    } else if is_like(text, "head") {
        Some(Method::Head)
    } else if is_like(text, "post") {
        Some(Method::Post)
    } else if is_like(text, "put") {
        Some(Method::Put)
    } else if is_like(text, "delete") {
        Some(Method::Delete)
    } else if is_like(text, "patch") {
        Some(Method::Patch)
    } else if is_like(text, "options") {
        Some(Method::Options)
    } else {
        None
    }
}

fn is_one_of(text: &Text, words: &[&str]) -> bool
    requires { IsTrue (list_all (λ w. is_ascii w.now) words.now) }
    ensures { result ≡ list_any (same text.now) (map (λ w. w.now) words.now) }
{
    for word in words {
        if is_word(text, word) {
            return true;
        }
    }
    false
}

fn starts_name(character: char) -> bool
    ensures { result ≡ starts_name character }
{
    character.is_ascii_lowercase() || character.is_ascii_uppercase() || character == '_'
}

fn goes_on_name(character: char) -> bool
    ensures { result ≡ goes_on_name character }
{
    starts_name(character) || character.is_ascii_digit()
}

fn all_go_on(text: &[char]) -> bool
    ensures { result ≡ list_all goes_on_name text.now }
{
    for character in text {
        if !goes_on_name(*character) {
            return false;
        }
    }
    true
}

// A letter or `_`, then letters, digits and `_`.
fn is_name_word(text: &[char]) -> bool
    ensures { result ≡ is_name_word text.now }
{
    match text {
        [] => false,
        [first, rest @ ..] => starts_name(*first) && all_go_on(rest),
    }
}

const KEYWORDS: &[&str] = &[
    "as", "or", "and", "if", "then", "elif", "else", "end", "null", "true", "false",
];

const RESERVED: &[&str] = &["context", "input", "output", "task", "workflow"];

fn is_keyword(text: &Text) -> bool
    ensures { result ≡ is_keyword text.now }
{
    is_one_of(text, KEYWORDS)
}

fn is_reserved(text: &Text) -> bool
    ensures { result ≡ list_any (same text.now) reserved }
{
    is_one_of(text, RESERVED)
}

/// A name that a document may give a value.
fn is_variable(text: &Text, characters: &[char]) -> bool
    requires { text.now ≡ characters.now }
    ensures { result ≡ is_variable text.now }
{
    is_name_word(characters) && !is_keyword(text) && !is_reserved(text)
}

fn brace_after(brace: Brace, character: char) -> Brace
    ensures { result ≡ brace_after brace character }
{
    match brace {
        Brace::Outside => {
            if character == '{' {
                Brace::Opened
            } else if character == '}' {
                Brace::Broken
            } else {
                Brace::Outside
            }
        }
        Brace::Opened => {
            if starts_name(character) {
                Brace::Named
            } else {
                Brace::Broken
            }
        }
        Brace::Named => {
            if character == '}' {
                Brace::Outside
            } else if goes_on_name(character) {
                Brace::Named
            } else {
                Brace::Broken
            }
        }
        Brace::Broken => Brace::Broken,
    }
}

fn is_outside(brace: Brace) -> bool
    ensures { result ≡ is_outside brace }
{
    match brace {
        Brace::Outside => true,
        Brace::Opened | Brace::Named | Brace::Broken => false,
    }
}

/// Whether braces stand only as `{name}`.
fn is_pattern(text: &[char]) -> bool
    ensures { result ≡ is_pattern text.now }
{
    let mut brace = Brace::Outside;
    for character in text {
        brace = brace_after(brace, *character);
    }
    is_outside(brace)
}

/// No fault where the test holds.
pub fn unless(holds: bool, kind: FaultKind) -> Option<FaultKind>
    ensures { result ≡ unless holds kind }
{
    if holds { None } else { Some(kind) }
}

// No fault of what is taken; the DSL has the one that is left out too.
fn choice(taken: bool, left_out: bool) -> Option<FaultKind>
    ensures { result ≡ choice taken left_out }
{
    if taken {
        None
    } else if left_out {
        Some(FaultKind::NotInProfile)
    } else {
        Some(FaultKind::BadText)
    }
}

// The fault of a text between `${` and `}` that is no expression, or else what is said of other texts.
fn enclosed_fault(
    alloc: Global,
    text: &[char],
    other: Option<FaultKind>,
) -> Result<Option<FaultKind>, AllocError>
    ensures { IfOk result (λ k. k ≡ enclosed_fault (trimmed text.now) other) }
{
    let text = trimmed(text);
    if is_enclosed(text) {
        let holds = parses(alloc, inner(text))?;
        Ok(unless(holds, FaultKind::BadExpression))
    } else {
        Ok(other)
    }
}

/// The fault of a text that should have a form.
pub fn text_verdict(alloc: Global, form: Form, text: &Text) -> Result<Option<FaultKind>, AllocError>
    ensures { IfOk result (λ k. k ≡ text_verdict form text.now) }
{
    match form {
        Form::Plain => Ok(None),
        Form::Dsl => Ok(bad_text(is_dsl(text.as_str().as_bytes()))),
        Form::Label => Ok(bad_text(is_label(text.as_str().as_bytes()))),
        Form::Version => Ok(bad_text(is_version(alloc, text)?)),
        Form::VersionOrLatest => Ok(bad_text(is_version_or_latest(alloc, text)?)),
        Form::Variable => variable_fault(alloc, text),
        Form::Method => Ok(bad_text(method_of(text).is_some())),
        Form::Language => Ok(unless(is_word(text, "jq"), FaultKind::NotInProfile)),
        Form::Mode => Ok(choice(is_word(text, "strict"), is_word(text, "loose"))),
        Form::Output => Ok(choice(is_output(text), is_word(text, "raw"))),
        Form::Read => Ok(choice(is_reading(text), is_word(text, "raw"))),
        Form::Callee => Ok(callee_fault(text)),
        Form::Expression => expression_fault(alloc, text),
        Form::Template => enclosed_fault(alloc, &characters(alloc, text)?, None),
        Form::Enclosed => {
            enclosed_fault(alloc, &characters(alloc, text)?, Some(FaultKind::BadText))
        }
        Form::Endpoint => endpoint_fault(alloc, text),
    }
}

fn bad_text(holds: bool) -> Option<FaultKind>
    ensures { result ≡ unless holds BadText }
{
    unless(holds, FaultKind::BadText)
}

fn is_version_or_latest(alloc: Global, text: &Text) -> Result<bool, AllocError>
    ensures { IfOk result (λ b. b ≡ (same text.now (codes "latest") || is_version text.now)) }
{
    if is_word(text, "latest") {
        Ok(true)
    } else {
        is_version(alloc, text)
    }
}

fn variable_fault(alloc: Global, text: &Text) -> Result<Option<FaultKind>, AllocError>
    ensures { IfOk result (λ k. k ≡ unless (is_variable text.now) BadText) }
{
    let characters = characters(alloc, text)?;
    Ok(bad_text(is_variable(text, &characters)))
}

fn is_output(text: &Text) -> bool
    ensures { result ≡ (same text.now (codes "content") || same text.now (codes "response")) }
{
    is_word(text, "content") || is_word(text, "response")
}

fn is_reading(text: &Text) -> bool
    ensures { result ≡ (same text.now (codes "data") || same text.now (codes "envelope")) }
{
    is_word(text, "data") || is_word(text, "envelope")
}

fn callee_fault(text: &Text) -> Option<FaultKind>
    ensures { result ≡ text_verdict Callee text.now }
{
    if is_word(text, "asyncapi") || is_word(text, "grpc") || is_word(text, "openapi") {
        Some(FaultKind::NotInProfile)
    } else {
        None
    }
}

fn expression_fault(alloc: Global, text: &Text) -> Result<Option<FaultKind>, AllocError>
    ensures { IfOk result (λ k. k ≡ text_verdict Expression text.now) }
{
    let characters = characters(alloc, text)?;
    let holds = parses(alloc, bare(trimmed(&characters)))?;
    Ok(unless(holds, FaultKind::BadExpression))
}

fn endpoint_fault(alloc: Global, text: &Text) -> Result<Option<FaultKind>, AllocError>
    ensures { IfOk result (λ k. k ≡ text_verdict Endpoint text.now) }
{
    let characters = characters(alloc, text)?;
    let pattern = bad_text(is_pattern(&characters));
    enclosed_fault(alloc, &characters, pattern)
}
