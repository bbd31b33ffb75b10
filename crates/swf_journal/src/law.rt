// What holds of every image.
ghost use Rattle.std.specs.Prelude.{◌≡◌, ℕ, List};
ghost use Rattle.swf_store.specs.declared.image.Image.{Image};
ghost use Rattle.swf_journal.specs.Stands.{Stands};

/// An image stands for at most one list of frames.
pub fn stands_for_one_list()
    ensures { (image : Image) (frames others : List (List ℕ)) → Stands image frames → Stands image others → frames ≡ others }
{}
