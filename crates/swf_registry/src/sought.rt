// How a used key is looked up without a copy.
ghost use Rattle.std.specs.Prelude.{◌≡◌, refl};
ghost use Rattle.swf_registry.specs.UsedKey.{stands_for, hashed_alike, stands_alike, sought_alike};
ghost use Rattle.swf_meaning.specs.Documents.{same_doc};

use indexmap::Equivalent;
use std::hash::Hash;
use swf_catalog::same_name;
use swf_document::DocKey;
use swf_meaning::Key;
use swf_text::{Text, same_texts};

/// A key that is looked up.
#[derive(Clone, Copy, PartialEq, Eq, Hash)]
pub enum Sought<'a> {
    Document(&'a DocKey),
    Instance(&'a Text),
    Event(&'a Text, &'a Text),
    Activity(&'a Text),
}

impl<'a> Equivalent<Key> for Sought<'a> {
    ghost equivalent = { stands_for };

    ghost respects_hash = { hashed_alike ⟦<Sought<'a> as Hash>⟧.hash_input ⟦<Key as Hash>⟧.hash_input (sought_alike ⟦<Sought<'a> as Hash>⟧.hash_input ⟦<Key as Hash>⟧.hash_input (λ k. refl) (λ id. refl) (λ source id. refl) (λ a. refl)) };

    ghost respects_eq = { stands_alike };

    fn equivalent(&self, key: &Key) -> bool {
        match (*self, key) {
            (Sought::Document(a), Key::Document(b)) => same_key(a, b),
            (Sought::Instance(a), Key::Instance(b)) => same_texts(a, b),
            (Sought::Event(source, id), Key::Event(other, own)) => {
                same_texts(source, other) && same_texts(id, own)
            }
            (Sought::Activity(a), Key::Activity(b)) => same_texts(a, b),
            _ => false,
        }
    }
}

// Whether two keys are one.
fn same_key(a: &DocKey, b: &DocKey) -> bool
    ensures { result ≡ same_doc a.now b.now }
{
    same_name(a, b) && same_texts(&a.version, &b.version)
}
