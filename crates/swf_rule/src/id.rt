// The id of an event or an activity.
ghost use Rattle.std.specs.Prelude.{◌≡◌, IfOk, decimal};
ghost use Rattle.swf_meaning.specs.Emit.{next_id};
ghost use Rattle.swf_rule.specs.Rules.{line_in, site_in};

use crate::rule::Rule;
use std::alloc::{AllocError, Global};
use swf_text::{Text, TextBuilder};

// The digits of a number.
#[tactic(auto, using(crate::proofs::IdLemmas::chars_decimal))]
fn digits(alloc: Global, number: u64) -> Result<Text, AllocError>
    ensures { IfOk result (λ t. t ≡ decimal number) }
{
    let digits = format!(in alloc; "{number}")?;
    Text::from_string(alloc, digits)
}

impl Rule<'_> {
    /// The id of the instance, `/` and the instance's next number.
    pub fn next_id(&self) -> Result<Text, AllocError>
        ensures { IfOk result (λ t. t ≡ next_id (site_in self.now) (line_in self.now)) }
    {
        let digits = digits(self.alloc, self.scene.setting.number)?;
        let mut id = TextBuilder::new(self.alloc);
        id.push_text(&self.scene.setting.id)?;
        id.push_ascii("/")?;
        id.push_text(&digits)?;
        id.into_text(self.alloc)
    }
}
