//! Counts that stand still at their last value.
ghost use Rattle.std.specs.Prelude.{◌≡◌};
ghost use Rattle.dev_traits.specs.Counts.{one_more};

/// One more, or the last value again.
pub fn raised(n: u64) -> u64
    ensures { result ≡ one_more n }
{
    if n < u64::MAX { n + 1 } else { n }
}
