// Reading the words of the command line.
ghost use Rattle.std.specs.Prelude.{◌≡◌, [], Ok, option_map};
ghost use Rattle.swf_text.specs.Same.{same};
ghost use Rattle.swf_words.specs.Words.{texts, parts, option_named, value_in, calls_of, is_dashed, mode_named, words_of};
ghost use Rattle.swf_words.specs.Arguments.{meant, Takes, TakesValue, TakesOther};

use crate::words::{Mode, Words};
use std::alloc::{AllocError, Global};
use swf_protocol::budget_of;

/// How many steps a settling takes at most where no word says it.
const STEPS: u32 = 1000;

/// An option.
#[derive(Clone, Copy)]
enum Setting {
    Steps,
    Calls,
    Workers,
}

/// What the next word may be.
#[derive(Clone, Copy)]
enum Expects {
    /// An option, the end of the options, or another word.
    Any,
    /// The value of the option before.
    Value(Setting),
    /// Another word, since the options have ended.
    Other,
}

/// What was read so far.
#[derive(Drop)]
struct Progress {
    steps: Option<u32>,
    http: Option<bool>,
    mode: Option<Mode>,
    expects: Expects,
}

fn is(word: &str, known: &str) -> bool
    ensures { result ≡ same word.now known.now }
{
    word == known
}

// The parts in front of the first `=` and behind it.
fn parts(word: &str) -> Option<(&str, &str)>
    ensures { option_map (λ p. (p.0.now, p.1.now)) result ≡ parts word.now }
{
    word.split_once('=')
}

// The option of a name.
fn option_named(word: &str) -> Option<Setting>
    ensures { result ≡ option_named word.now }
{
    if is(word, "--steps") {
        Some(Setting::Steps)
    } else if is(word, "--calls") {
        Some(Setting::Calls)
    } else if is(word, "--workers") {
        Some(Setting::Workers)
    } else {
        None
    }
}

// The option and the value in a word that is an option's name, `=` and a value.
fn value_in(word: &str) -> Option<(Setting, &str)>
    ensures { option_map (λ p. (p.0, p.1.now)) result ≡ value_in word.now }
{
    let (name, value) = parts(word)?;
    let setting = option_named(name)?;
    Some((setting, value))
}

fn is_dashed(word: &str) -> bool
    ensures { result ≡ is_dashed word.now }
{
    let bytes = word.as_bytes();
    !bytes.is_empty() && bytes[0] == b'-'
}

fn mode_named(word: &str) -> Option<Mode>
    ensures { result ≡ mode_named word.now }
{
    if is(word, "check") {
        Some(Mode::Check)
    } else if is(word, "session") {
        Some(Mode::Session)
    } else if is(word, "show") {
        Some(Mode::Show)
    } else {
        None
    }
}

// Takes a value of an option, which stands at most once. The value has the option's form. `--workers` is known, and no value of it
// is taken yet.
fn take_value(progress: &mut Progress, setting: Setting, word: &str) -> bool
    ensures { TakesValue result progress.old (setting, word.now) progress.new }
{
    match setting {
        Setting::Steps => take_steps(progress, word),
        Setting::Calls => take_calls(progress, word),
        Setting::Workers => false,
    }
}

// Takes a value of `--steps`: a number from 1 to 1,000,000.
fn take_steps(progress: &mut Progress, word: &str) -> bool
    ensures { TakesValue result progress.old (Setting.Steps, word.now) progress.new }
{
    if progress.steps.is_some() {
        return false;
    }
    match budget_of(word.as_bytes()) {
        Some(steps) => {
            progress.steps = Some(steps as u32);
            true
        }
        None => false,
    }
}

// By whom calls are answered: `http` or `manual`.
fn calls_of(word: &str) -> Option<bool>
    ensures { result ≡ calls_of word.now }
{
    if is(word, "http") {
        Some(true)
    } else if is(word, "manual") {
        Some(false)
    } else {
        None
    }
}

// Takes a value of `--calls`.
fn take_calls(progress: &mut Progress, word: &str) -> bool
    ensures { TakesValue result progress.old (Setting.Calls, word.now) progress.new }
{
    if progress.http.is_some() {
        return false;
    }
    match calls_of(word) {
        Some(http) => {
            progress.http = Some(http);
            true
        }
        None => false,
    }
}

// Takes a word that is left, which is the mode.
fn take_other(progress: &mut Progress, word: &str) -> bool
    ensures { TakesOther result progress.old word.now progress.new }
{
    if progress.mode.is_some() {
        return false;
    }
    match mode_named(word) {
        Some(mode) => {
            progress.mode = Some(mode);
            true
        }
        None => false,
    }
}

// Takes a word where an option may come, or says that no words with it have a meaning.
fn take_any(progress: &mut Progress, word: &str) -> bool
    requires { progress.old.expects ≡ Expects.Any }
    ensures { Takes result progress.old word.now progress.new }
{
    if let Some(setting) = option_named(word) {
        progress.expects = Expects::Value(setting);
        return true;
    }
    let ends = is(word, "--");
    if ends {
        progress.expects = Expects::Other;
        return true;
    }
    if let Some((setting, value)) = value_in(word) {
        return take_value(progress, setting, value);
    }
    let dashed = is_dashed(word);
    if dashed {
        return false;
    }
    take_other(progress, word)
}

// Takes the next word, or says that no words with it have a meaning.
fn take_word(progress: &mut Progress, word: &str) -> bool
    ensures { Takes result progress.old word.now progress.new }
{
    match progress.expects {
        Expects::Any => take_any(progress, word),
        Expects::Value(setting) => {
            progress.expects = Expects::Any;
            take_value(progress, setting, word)
        }
        Expects::Other => take_other(progress, word),
    }
}

// What is meant where no word comes any more.
fn meaning(progress: &Progress) -> Option<Words>
    ensures { result ≡ meant progress.now [] }
{
    let Some(mode) = progress.mode else {
        return None;
    };
    match progress.expects {
        Expects::Value(_) => None,
        Expects::Any | Expects::Other => Some(Words {
            steps: progress.steps.unwrap_or(STEPS),
            http: progress.http.unwrap_or(false),
            mode,
        }),
    }
}

/// What the words of the command line mean, if they have a meaning. It takes no memory yet.
pub fn read_words(_alloc: Global, words: &[String]) -> Result<Option<Words>, AllocError>
    ensures { result ≡ Ok (words_of (texts words.now)) }
{
    let mut progress = Progress {
        steps: None,
        http: None,
        mode: None,
        expects: Expects::Any,
    };
    for word in words {
        if !take_word(&mut progress, word.as_str()) {
            return Ok(None);
        }
    }
    Ok(meaning(&progress))
}
