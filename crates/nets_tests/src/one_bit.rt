//! The nets of the smallest design.
ghost use Rattle.std.specs.Prelude.{◌≡◌, IfOk};
ghost use Rattle.nets_tests.specs.Smallest.{resets, smallest, smallest_kind};

use pm_design::{Design, Kind, Role, Signal};
use pm_io::{List, NoMemory, Text};
use pm_nets::nets;
use std::alloc::Global;

// A `reset` alone.
fn reset_alone(alloc: Global) -> Result<List<Signal>, NoMemory>
    ensures { IfOk result (λ signals. signals ≡ resets) }
{
    let name = Text::from_slice(alloc, b"reset")?;
    let mut signals = List::new(alloc);
    signals.push(Signal {
        name,
        role: Role::Input,
        width: 1,
        shape: None,
    })?;
    Ok(signals)
}

// A component with nothing but its `reset`.
fn kind_of_reset(alloc: Global) -> Result<Kind, NoMemory>
    ensures { IfOk result (λ kind. kind ≡ smallest_kind) }
{
    let class = Text::from_slice(alloc, b"A")?;
    Ok(Kind {
        class,
        signals: reset_alone(alloc)?,
        states: List::new(alloc),
        children: List::new(alloc),
        methods: List::new(alloc),
        callers: List::new(alloc),
        joins: List::new(alloc),
        mismatched: List::new(alloc),
        ties: List::new(alloc),
        binds: List::new(alloc),
        blocks: List::new(alloc),
        rules: List::new(alloc),
        instances: 1,
    })
}

// The design of that component.
fn design_of_reset(alloc: Global) -> Result<Design, NoMemory>
    ensures { IfOk result (λ design. design ≡ smallest) }
{
    let mut kinds = List::new(alloc);
    kinds.push(kind_of_reset(alloc)?)?;
    Ok(Design {
        kinds,
        shapes: List::new(alloc),
        top: 0,
    })
}

#[test]
#[tactic(auto, using(crate::proofs::Smallest::smallest_sound))]
fn one_bit_is_one_net(rt: HostRuntime) {
    let design = design_of_reset(rt.alloc()).expect(&rt, "memory");
    match nets(rt.alloc(), &design) {
        Ok(nets) => {
            assert_eq!(rt; nets.count, 1);
            assert!(rt; nets.net_of.as_slice() == [0].as_slice());
        }
        Err(_) => assert!(rt; false),
    }
}
