// The names of variables.
ghost use Rattle.std.specs.Prelude.{◌≡◌, true, IfOk};

use std::alloc::AllocError;
use std::marker::Model;
use swf_text::Text;

/// A letter or `_`, then letters, digits and `_`, and no keyword. Contracts see it as its characters.
#[derive(Drop)]
pub struct Name {
    text: Text,
}

impl Model for Name {
    ghost use Rattle.std.specs.Prelude.{◌≡◌, true, ℕ, List};
    ghost use Rattle.swf_expr.specs.Name.{is_name};

    ghost Value = { List ℕ };

    ghost view = { λ n. n.text };

    ghost invariant = { λ n. is_name n.text ≡ true };
}

impl Name {
    ghost use Rattle.swf_expr.specs.Name.{is_name};

    /// The name that a text is. It takes no memory.
    pub fn new(text: Text) -> Name
        requires { is_name text ≡ true }
        ensures { result ≡ text }
    {
        Name { text }
    }

    /// The text of the name.
    pub fn text(&self) -> &Text
        ensures text { result.now ≡ self.now }
        ensures name { is_name self.now ≡ true }
    {
        &self.text
    }

    /// The text inside. It takes no memory.
    pub fn into_text(self) -> Text
        ensures text { result ≡ self }
        ensures name { is_name self ≡ true }
    {
        self.text
    }

    /// The same name.
    pub fn copy(&self) -> Result<Name, AllocError>
        ensures { IfOk result (λ n. n ≡ self.now) }
    {
        let text = self.text.copy()?;
        Ok(Name { text })
    }
}
