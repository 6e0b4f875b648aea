//! Givers of the nets within components, gift by gift.
ghost use Rattle.std.specs.Prelude.{◌≡◌, ◌+◌, ◌*◌, ◌<◌, ◌≤◌, ◌^◌, IsTrue, flat_map, length};
ghost use Rattle.std.specs.List.{list_all};
ghost use Rattle.pm_design.specs.Elaborated.{IsElaborated};
ghost use Rattle.pm_design.specs.Instances.{flat_bits};
ghost use Rattle.pm_design.specs.Lookups.{lies_within};
ghost use Rattle.pm_design.specs.Runnable.{kind_at};
ghost use Rattle.pm_instances.specs.Laid.{laid_out};
ghost use Rattle.pm_nets.specs.Givers.{Gives, gift_givers};
ghost use Rattle.pm_nets.specs.Sites.{IsSite};

use crate::ends::end_at;
use crate::giver::{Gift, Giver, give};
use crate::site::{Site, first_bit};
use disjoint_sets::DisjointSets;
use pm_design::Design;

// Looks at the givers of a gift, one for each bit.
#[tactic(auto, using(crate::proofs::GiverLists::bits_given))]
fn give_gift(
    design: &Design,
    site: &Site,
    i: usize,
    gift: Gift,
    sets: &mut DisjointSets,
    first: &mut [Option<Giver>],
    least: Option<u32>,
) -> Option<u32>
    requires site { IsSite design.now site.now }
    requires design { IsElaborated design.now }
    requires few { flat_bits design.now ≤ 2 ^ 18 }
    requires instance { i < length site.now.instances }
    requires part { IsTrue (lies_within design.now (kind_at (laid_out design.now) i) gift.part) }
    requires bits { length sets.old ≡ 2 * flat_bits design.now }
    requires size { length first.old ≡ length sets.old }
    ensures same { sets.new ≡ sets.old }
    ensures given { Gives sets.old first.old first.new least result (gift_givers (laid_out design.now) i gift) }
{
    let start = first_bit(design, site, i, gift.part);
    let mut found = least;
    for t in 0..gift.part.width {
        let end = end_at(gift.part.owner, start + t);
        let source = gift.source;
        found = give(sets, first, found, Giver { source, end });
    }
    found
}

/// Looks at the givers of gifts.
#[tactic(auto, using(crate::proofs::GiverLists::gifts_given))]
pub(crate) fn give_gifts(
    design: &Design,
    site: &Site,
    i: usize,
    gifts: &[Gift],
    sets: &mut DisjointSets,
    first: &mut [Option<Giver>],
    least: Option<u32>,
) -> Option<u32>
    requires site { IsSite design.now site.now }
    requires design { IsElaborated design.now }
    requires few { flat_bits design.now ≤ 2 ^ 18 }
    requires instance { i < length site.now.instances }
    requires parts { IsTrue (list_all (λ g. lies_within design.now (kind_at (laid_out design.now) i) g.part)
        gifts.now) }
    requires bits { length sets.old ≡ 2 * flat_bits design.now }
    requires size { length first.old ≡ length sets.old }
    ensures same { sets.new ≡ sets.old }
    ensures given { Gives sets.old first.old first.new least result
        (flat_map (gift_givers (laid_out design.now) i) gifts.now) }
{
    let mut found = least;
    for gift in gifts {
        found = give_gift(design, site, i, *gift, sets, first, found);
    }
    found
}
