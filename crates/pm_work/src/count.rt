//! Counts that stop at 2^63.
ghost use Rattle.std.specs.Prelude.{◌≡◌, ◌+◌, ◌≤◌, ◌^◌};
ghost use Rattle.pm_work.specs.Work.{counted};

/// The greatest count.
const MAX_COUNT: u64 = 1 << 63;

/// Counts some more.
pub(crate) fn add(count: u64, more: u64) -> u64
    requires { count ≤ 2 ^ 63 }
    ensures { result ≡ counted (count + more) }
{
    count.saturating_add(more).min(MAX_COUNT)
}
