//! Laws of nets. No code calls these functions: each one proves its law.
ghost use Rattle.std.specs.Prelude.{ℕ, ◌≡◌, ◌<◌, length, Contains};
ghost use Rattle.pm_design.specs.declared.body.Block.{Block};
ghost use Rattle.pm_design.specs.declared.connection.Part.{Part};
ghost use Rattle.pm_design.specs.declared.connection.Tie.{Tie};
ghost use Rattle.pm_design.specs.declared.design.Design.{Design};
ghost use Rattle.pm_design.specs.declared.plan.Plan.{Plan};
ghost use Rattle.pm_design.specs.Instances.{instances_of};
ghost use Rattle.pm_design.specs.Runnable.{kind_at};
ghost use Rattle.pm_design.specs.Sample.{sample};
ghost use Rattle.pm_design.specs.Sound.{IsSound};
ghost use Rattle.pm_instances.specs.Laid.{laid_out};
ghost use Rattle.pm_nets.specs.declared.giver.Giver.{Giver};
ghost use Rattle.pm_nets.specs.Answers.{IsAccepted};
ghost use Rattle.pm_nets.specs.Legal.{Drives, HasOneDriver, IsLegal, NamesNetsOnce, NamesPorts};
ghost use Rattle.pm_nets.specs.Links.{AreOneNet};
ghost use Rattle.pm_nets.specs.Written.{written_in};

/// To be of one net is an equivalence.
#[tactic(auto, using(crate::proofs::Joined::one_net))]
pub fn one_net_is_an_equivalence()
    ensures reflexive { (plan : Plan) (a : ℕ) → AreOneNet plan a a }
    ensures symmetric { (plan : Plan) (a b : ℕ) → AreOneNet plan a b → AreOneNet plan b a }
    ensures transitive { (plan : Plan) (a b c : ℕ) → AreOneNet plan a b → AreOneNet plan b c → AreOneNet plan a c }
{}

/// An accepted design is legal if its connections name own signals and children's ports alone.
#[tactic(auto, using(crate::proofs::Legality::accepted_legal))]
pub fn accepted_designs_are_legal()
    ensures { (design : Design) → IsSound design → NamesPorts design → IsAccepted design → IsLegal design }
{}

/// In a legal design a net has at most one driver: an input bit of the top, a bit of a tie, or a bit that a block may
/// write.
#[tactic(auto, using(crate::proofs::Legality::one_driver_each))]
pub fn a_net_has_at_most_one_driver()
    ensures { (design : Design) (a b : Giver) (x : ℕ) → IsLegal design →
        Drives (laid_out design) a x → Drives (laid_out design) b x → a ≡ b }
{}

/// In a legal design each net of two or more flat bits has exactly one driver.
#[tactic(auto, using(crate::proofs::Deciding::net_has_driver))]
pub fn a_net_of_two_bits_has_one_driver()
    ensures { (design : Design) (x y : ℕ) → IsLegal design → (x ≡ y → ⊥) → AreOneNet (laid_out design) x y →
        HasOneDriver (laid_out design) x }
{}

/// In a legal design no part that a tie or a block drives has two bits of one net.
pub fn driven_parts_name_no_net_twice()
    ensures tied { (design : Design) (i : ℕ) (tie : Tie) → IsLegal design → i < length (instances_of design) →
        Contains (kind_at (laid_out design) i).ties tie → NamesNetsOnce (laid_out design) i tie.part }
    ensures written { (design : Design) (i : ℕ) (block : Block) (part : Part) → IsLegal design →
        i < length (instances_of design) → Contains (kind_at (laid_out design) i).blocks block →
        Contains (written_in block.body) part → NamesNetsOnce (laid_out design) i part }
{}

/// There is a legal design, and an accepted one: a component with a child, whose connection joins flat bits of both.
#[tactic(auto, using(crate::proofs::SampleNets::sample_laws))]
pub fn a_design_is_legal()
    ensures legal { IsLegal sample }
    ensures accepted { IsAccepted sample }
    ensures joined { AreOneNet (laid_out sample) 0 17 }
{}
