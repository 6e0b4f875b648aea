//! The nets of a design, instance by instance.
ghost use Rattle.pm_design.specs.Sound.{IsSound};

use crate::page::Page;
use crate::refusal::Refusal;
use pm_design::{Design, Instance};
use pm_instances::flatten;
use pm_nets::nets;
use pm_work::work;
use std::alloc::Global;

/// Neighbouring numbers.
#[derive(Clone, Copy)]
struct Run {
    first: u32,
    last: u32,
}

/// Writes the instances of a design with the net of each bit of their signals, and how many nets and nodes there are.
pub fn write_nets(alloc: Global, page: &mut Page, design: &Design) -> Result<(), Refusal>
    requires { IsSound design.now }
{
    let nets = nets(alloc, design)?;
    let instances = flatten(alloc, design)?;
    for (number, instance) in instances.as_slice().iter().enumerate() {
        write_instance(page, number, instance);
        write_signals(page, design, instance, nets.net_of.as_slice());
    }
    page.put(b"nets ");
    page.put_number(nets.count);
    page.put(b"\nwork ");
    page.put_wide(u128::from(work(alloc, design, instances.as_slice())?));
    page.put(b"\n");
    Ok(())
}

fn write_instance(page: &mut Page, number: usize, instance: &Instance) {
    page.put(b"instance ");
    page.put_index(number);
    page.put(b" ");
    page.put(instance.path.as_slice());
    page.put_field(b"kind", instance.kind);
    page.put_field(b"bit", instance.first_bit);
    page.put_field(b"state", instance.first_state);
    page.put(b"\n");
}

// A line for each signal, with the nets of its bits from bit 0 up.
fn write_signals(page: &mut Page, design: &Design, instance: &Instance, net_of: &[u32]) {
    let Some(kind) = design.kinds.as_slice().get(instance.kind as usize) else {
        return;
    };
    let mut first = instance.first_bit as usize;
    for signal in kind.signals.as_slice() {
        page.put(b"  net ");
        page.put(signal.name.as_slice());
        let end = first.saturating_add(signal.width as usize);
        write_runs(page, net_of.get(first..end).unwrap_or(&[]));
        page.put(b"\n");
        first = end;
    }
}

// The numbers, each after a blank. Those that rise by one are written as the first and the last of them.
fn write_runs(page: &mut Page, numbers: &[u32]) {
    let mut open: Option<Run> = None;
    for number in numbers {
        open = match open {
            Some(run) if run.last.checked_add(1) == Some(*number) => Some(Run {
                last: *number,
                ..run
            }),
            done => {
                write_run(page, done);
                Some(Run {
                    first: *number,
                    last: *number,
                })
            }
        };
    }
    write_run(page, open);
}

fn write_run(page: &mut Page, run: Option<Run>) {
    if let Some(Run { first, last }) = run {
        page.put(b" ");
        page.put_number(first);
        if first < last {
            page.put(b"-");
            page.put_number(last);
        }
    }
}
