// Which calls of what stands in memory fail.
ghost use Rattle.std.specs.Prelude.{◌≡◌};
ghost use Rattle.swf_store.specs.Replay.{is_in};

/// Whether the call of a number is one that fails.
pub(crate) fn is_failing(failing: &[u64], number: u64) -> bool
    ensures { result ≡ is_in failing.now number }
{
    failing.contains(&number)
}
