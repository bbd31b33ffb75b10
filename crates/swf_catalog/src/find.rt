// Where the task of a name stands in a list.
ghost use Rattle.std.specs.Prelude.{◌≡◌};
ghost use Rattle.swf_document.specs.TaskNode.{tasks_of};
ghost use Rattle.swf_meaning.specs.Next.{place_from};

use swf_document::Named;
use swf_text::{Text, same_texts};

/// The place of the task of a name; of several, that of the first.
pub fn place_of(name: &Text, tasks: &[Named]) -> Option<usize>
    ensures { result ≡ place_from 0 name.now (tasks_of tasks.now) }
{
    for (place, named) in tasks.iter().enumerate() {
        if same_texts(&named.name, name) {
            return Some(place);
        }
    }
    None
}
