// The loaded documents.
ghost use Rattle.std.specs.Prelude.{◌≡◌, ◌<◌, ◌++◌, ◌∷◌, [], length, None, IfOk, OnOk, option_map};
ghost use Rattle.std.specs.Arc.{arc_value};
ghost use Rattle.swf_meaning.specs.Documents.{document_at, last_version, resolved, same_name};
ghost use Rattle.swf_catalog.specs.Loads.{loaded_of};

use crate::shared::{SharedDocument, share_document};
use indexmap::IndexMap;
use std::alloc::{AllocError, Global};
use std::marker::Model;
use std::sync::Arc;
use swf_document::{DocKey, Document};
use swf_text::{Text, is_word, same_texts};
use swf_value::Json;

/// A document, and the value that it was read from.
#[derive(Drop)]
pub struct Loaded {
    pub value: Json,
    pub document: SharedDocument,
}

impl Loaded {
    /// A document that can be run, and the value that it was read from.
    pub fn new(alloc: Global, value: Json, document: Arc<Document>) -> Result<Loaded, AllocError>
        ensures { IfOk result (λ l. l ≡ record { value = value; document = arc_value document }) }
    {
        let document = share_document(alloc, document)?;
        Ok(Loaded { value, document })
    }
}

/// The loaded documents. Contracts see them in load order, and how many more fit without memory.
#[derive(Drop)]
pub struct Documents {
    by_key: IndexMap<DocKey, Loaded>,
}

impl Model for Documents {
    ghost use Rattle.std.specs.List.{AllByRecursion};
    ghost use Rattle.indexmap.specs.IndexMap.{spare};
    ghost use Rattle.swf_catalog.specs.HeldDocuments.{HeldDocuments, held_documents_code};

    ghost Value = { HeldDocuments };

    ghost coded = { held_documents_code };

    ghost use Rattle.swf_catalog.specs.Loads.{loaded_in, IsNamed};

    ghost view = { λ d. record { documents = loaded_in d.by_key.entries; room = spare d.by_key } };

    ghost invariant = { λ d. AllByRecursion IsNamed d.by_key.entries };
}

impl Documents {
    /// No document is loaded. It takes no memory.
    pub fn new(alloc: Global) -> Documents
        ensures { result.documents ≡ [] }
    {
        Documents {
            by_key: IndexMap::new(alloc),
        }
    }

    /// Makes room for one document more.
    pub fn reserve(&mut self) -> Result<(), AllocError>
        ensures documents { self.new.documents ≡ self.old.documents }
        ensures room { OnOk result (0 < self.new.room) }
    {
        self.by_key.reserve(1)
    }

    /// How many there are.
    pub fn len(&self) -> usize
        ensures { result ≡ length self.now.documents }
    {
        self.by_key.len()
    }

    /// The document of a key.
    pub fn get(&self, key: &DocKey) -> Option<&SharedDocument>
        ensures { option_map (λ d. d.now) result ≡ document_at key.now self.now.documents }
    {
        let loaded = self.by_key.get(key)?;
        Some(&loaded.document)
    }

    // The version of the last document that was loaded of a key's namespace and name, or the key's own.
    fn last_version<'a>(&'a self, key: &'a DocKey) -> &'a Text
        ensures { result.now ≡ last_version key.now self.now.documents key.now.version }
    {
        let mut version = &key.version;
        for number in 0..self.by_key.len() {
            let loaded = &self.by_key[number];
            let document = loaded.document.get().document();
            if same_name(key, &document.key) {
                version = &document.key.version;
            }
        }
        version
    }

    /// A key with the version that was loaded last of its namespace and name in place of `latest`; it stays as it is where there is none.
    pub fn resolved(&self, key: DocKey) -> Result<DocKey, AllocError>
        ensures { IfOk result (λ k. k ≡ resolved self.now.documents key) }
    {
        if !is_word(&key.version, "latest") {
            return Ok(key);
        }
        let version = self.last_version(&key).copy()?;
        Ok(DocKey { version, ..key })
    }

    /// Adds a document under its own key, of which there is none. It takes no memory.
    pub fn add(&mut self, key: DocKey, loaded: Loaded)
        requires named { key ≡ loaded.document.key }
        requires new { document_at key self.old.documents ≡ None }
        requires room { 0 < self.old.room }
        ensures { self.new.documents ≡ self.old.documents ++ loaded_of loaded ∷ [] }
    {
        self.by_key.insert(key, loaded).unwrap();
    }
}

/// Whether two keys are of one document, in whatever version.
pub fn same_name(a: &DocKey, b: &DocKey) -> bool
    ensures { result ≡ same_name a.now b.now }
{
    same_texts(&a.namespace, &b.namespace) && same_texts(&a.name, &b.name)
}
