// What is kept of a task of a document.
ghost use Rattle.std.specs.Prelude.{◌≡◌, true, is_some};
ghost use Rattle.swf_meaning.specs.Next.{task_at};

use swf_document::Tasks;

/// Where the lists of a task begin: that of its tasks or branches, and the one that it runs once it has caught an error. For a task
/// with one list they are the same.
#[derive(Clone, Copy)]
pub struct Begins {
    pub tasks: usize,
    pub handler: usize,
}

/// A task: the list that it stands in, the place there, and where its own lists begin.
#[derive(Drop)]
pub struct Row {
    pub tasks: Tasks,
    pub place: usize,
    pub begins: Begins,
    ghost listed: { is_some (task_at tasks place) ≡ true },
}
