//! Laws of designs. No code calls these functions: each one proves its law.
ghost use Rattle.std.specs.Prelude.{◌≡◌};
ghost use Rattle.pm_design.specs.Instances.{flat_bits, instances_of};
ghost use Rattle.pm_design.specs.Ports.{RunnablePlansHavePorts};
ghost use Rattle.pm_design.specs.Runnable.{IsRunnable};
ghost use Rattle.pm_design.specs.Sample.{sample, sample_instances, sample_plan};
ghost use Rattle.pm_design.specs.Sound.{IsSound};

/// There is a sound design, with a child, a connection, an update block and a block at the clock edge.
#[tactic(auto, using(crate::proofs::Samples::sample_sound))]
pub fn a_design_is_sound()
    ensures { IsSound sample }
{}

/// The instances and the flat bits of that design.
#[tactic(auto, using(crate::proofs::Samples::instances_of_sample))]
pub fn a_design_has_its_instances()
    ensures instances { instances_of sample ≡ sample_instances }
    ensures bits { flat_bits sample ≡ 34 }
{}

/// There is a runnable plan: one of that design.
#[tactic(auto, using(crate::proofs::SamplePlans::sample_runnable))]
pub fn a_plan_is_runnable()
    ensures { IsRunnable sample_plan }
{}

/// The inputs and ports of a runnable plan are signals of the top.
#[tactic(auto, using(crate::proofs::Ports::runnable_has_ports))]
pub fn runnable_plans_have_ports()
    ensures { RunnablePlansHavePorts }
{}
