// Reading a value as a document.
ghost use Rattle.std.specs.Prelude.{◌≡◌, ◌⊎◌, ◌∷◌, [], IfOk, IsTrue, Err, codes};
ghost use Rattle.swf_text.specs.Same.{is_ascii};
ghost use Rattle.swf_reader.specs.Parts.{part, text_in, key_in};
ghost use Rattle.swf_reader.specs.Reads.{document_of, errors_of, functions_of, retries_of, tasks_in};
ghost use Rattle.swf_reader.specs.Answer.{document_or_faults};

use crate::call::key_in;
use crate::error::{errors_of, retries_of};
use crate::parts::{part, text_part};
use crate::task::{functions_of, tasks_in};
use crate::template::transform_at;
use std::alloc::{AllocError, Global};
use swf_document::{DocKey, Document, Faults, Listing, NamedError, NamedRetry, Tasks};
use swf_shapes::{child, read_faults};
use swf_text::{Place, word};
use swf_value::Json;

/// Why a value was not read as a document.
#[derive(Drop)]
pub enum ReadFault {
    /// It has these faults, in the order of their places.
    Faults(Faults),
    OutOfMemory,
}

impl From<AllocError> for ReadFault {
    ghost use Rattle.std.specs.Prelude.{◌≡◌};
    ghost use Rattle.swf_reader.specs.declared.document.ReadFault.TheVariants.{OutOfMemory};

    ghost from_gives = { λ _ e. e ≡ OutOfMemory };

    fn from(_: AllocError) -> ReadFault {
        ReadFault::OutOfMemory
    }
}

/// Reads a value as a document.
#[tactic(auto, using(crate::proofs::AnswerLemmas::answer_none, crate::proofs::AnswerLemmas::answer_some))]
pub fn read_document(alloc: Global, value: &Json) -> Result<Document, ReadFault>
    ensures { (result ≡ Err ReadFault.OutOfMemory) ⊎ (result ≡ document_or_faults value.now) }
{
    match read_faults(alloc, value) {
        Ok(faults) if faults.is_empty() => match document_of(alloc, value) {
            Ok(document) => Ok(document),
            Err(AllocError) => Err(ReadFault::OutOfMemory),
        },
        Ok(faults) => Err(ReadFault::Faults(faults)),
        Err(AllocError) => Err(ReadFault::OutOfMemory),
    }
}

fn key_of(alloc: Global, value: &Json) -> Result<DocKey, AllocError>
    ensures { IfOk result (λ k. k ≡ key_in (text_in (part (codes "version") (part (codes "document") value.now))) (part (codes "document") value.now)) }
{
    let nothing = Json::null();
    let head = part(value, "document", &nothing);
    let version = text_part(alloc, head, "version")?;
    key_in(alloc, version, head)
}

// The place of a member of the document.
fn place_of(alloc: Global, name: &str) -> Result<Place, AllocError>
    requires { IsTrue (is_ascii name.now) }
    ensures { IfOk result (λ p. p ≡ name.now ∷ []) }
{
    let name = word(alloc, name)?;
    child(alloc, &Place::root(alloc), name)
}

// The tasks of a document.
fn tasks_of(alloc: Global, value: &Json) -> Result<Tasks, AllocError>
    ensures { IfOk result (λ ts. ts ≡ tasks_in (codes "do" ∷ []) (part (codes "do") value.now)) }
{
    let place = place_of(alloc, "do")?;
    let nothing = Json::null();
    tasks_in(alloc, &place, part(value, "do", &nothing))
}

// What the tasks of a document use.
#[derive(Drop)]
struct Uses {
    functions: Tasks,
    errors: Listing<NamedError>,
    retries: Listing<NamedRetry>,
}

fn functions_used(alloc: Global, uses: &Json) -> Result<Tasks, AllocError>
    ensures { IfOk result (λ ts. ts ≡ functions_of (codes "use" ∷ codes "functions" ∷ []) (part (codes "functions") uses.now)) }
{
    let name = word(alloc, "functions")?;
    let place = child(alloc, &place_of(alloc, "use")?, name)?;
    let nothing = Json::null();
    functions_of(alloc, &place, part(uses, "functions", &nothing))
}

fn uses_of(alloc: Global, value: &Json) -> Result<Uses, AllocError>
    ensures functions { IfOk result (λ u. u.functions ≡ functions_of (codes "use" ∷ codes "functions" ∷ []) (part (codes "functions") (part (codes "use") value.now))) }
    ensures errors { IfOk result (λ u. u.errors ≡ errors_of (part (codes "errors") (part (codes "use") value.now))) }
    ensures retries { IfOk result (λ u. u.retries ≡ retries_of (part (codes "retries") (part (codes "use") value.now))) }
{
    let nothing = Json::null();
    let uses = part(value, "use", &nothing);
    let functions = functions_used(alloc, uses)?;
    let errors = errors_of(alloc, part(uses, "errors", &nothing))?;
    let retries = retries_of(alloc, part(uses, "retries", &nothing))?;
    Ok(Uses {
        functions,
        errors,
        retries,
    })
}

fn document_of(alloc: Global, value: &Json) -> Result<Document, AllocError>
    ensures { IfOk result (λ d. d ≡ document_of value.now) }
{
    let tasks = tasks_of(alloc, value)?;
    let input_from = transform_at(alloc, value, "input", "from")?;
    let output_as = transform_at(alloc, value, "output", "as")?;
    let key = key_of(alloc, value)?;
    let Uses {
        functions,
        errors,
        retries,
    } = uses_of(alloc, value)?;
    Ok(Document {
        key,
        input_from,
        output_as,
        tasks,
        functions,
        errors,
        retries,
    })
}
