//! What the numbers of a design name.
ghost use Rattle.std.specs.Prelude.{◌≡◌, ◌<◌, length};
ghost use Rattle.pm_design.specs.Lookups.{kind_of};

use pm_design::{Design, Kind};

/// The kind of a number.
pub(crate) fn kind_at<'a>(design: &'a Design, k: u32) -> &'a Kind
    requires { k < length design.now.kinds }
    ensures { result.now ≡ kind_of design.now k }
{
    &design.kinds.as_slice()[k as usize]
}
