// What a strand goes by.
ghost use Rattle.std.specs.Prelude.{◌≡◌, ◌↔◌, IsTrue};
ghost use Rattle.swf_scene.specs.Setting.{setting_line};

use crate::same::Same;
use swf_evaluation::Variable;
use swf_scene::Setting;

impl Same for Variable {
    fn is_same(&self, other: &Variable) -> bool {
        self.name.is_same(&other.name) && self.value.is_same(&other.value)
    }
}

/// Whether steps go by the same where they go by these: of two instances that are the same but for their tasks and the number of
/// the next event.
pub fn same_line(a: &Setting, b: &Setting) -> bool
    ensures { IsTrue result ↔ (setting_line a.now ≡ setting_line b.now) }
{
    a.started.is_same(&b.started)
        && a.id.is_same(&b.id)
        && a.document.is_same(&b.document)
        && a.input.is_same(&b.input)
        && a.context.is_same(&b.context)
}

impl Same for Setting {
    fn is_same(&self, other: &Setting) -> bool {
        self.number == other.number && same_line(self, other)
    }
}
