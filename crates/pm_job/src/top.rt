//! The program's one call.
ghost use Rattle.std.specs.Prelude.{◌≡◌, ◌↔◌, None, List, ℕ, map, IfSome};
ghost use Rattle.std.specs.String.{string_bytes};
ghost use Rattle.pm_io.specs.Causes.{HasCause, Rose};
ghost use Rattle.pm_io.specs.Known.{Empties};
ghost use Rattle.pm_job.specs.Answers.{Answers, HasReadCause, IsMessageOf, Says, Shows};
ghost use Rattle.pm_job.specs.CommandLine.{job_of as spec_job_of, target_now};
ghost use Rattle.pm_job.specs.Endings.{EndsAs, EndsTarget};
ghost use Rattle.pm_job.specs.Form.{component_of};
ghost use Rattle.pm_job.specs.Progress.{IsRead};

use crate::command_line::{Target, job_of};
use crate::component::Component;
use crate::finish::Finish;
use crate::form::{MAX_TEXT, read_component};
use crate::message::{say, say_usage};
use crate::order::order_of;
use crate::schedule::Schedule;
use crate::simulate::simulate;
use crate::status::Status;
use pm_io::{Gate, Loaded, Sink, Source, Store};
use std::alloc::Global;
use std::thread::Threads;

/// Does the job that the words mean, and returns how it ended. The words don't include the program's name.
///
/// The store has no current file when the call begins. A failure of `errors` changes no status.
pub fn run<R: Threads + Sync, I: Source, O: Sink, E: Sink, S: Store, G: Gate>(
    alloc: Global,
    rt: &R,
    words: &Vec<String>,
    input: &mut I,
    output: &mut O,
    errors: &mut E,
    store: &mut S,
    gate: &G,
) -> Status
    requires { S.current store.old ≡ None }

    // If the objects tell their contents: the output, the message and the status are right for the words, the files and
    // the input. After a fault, or when memory ran out, the output is a prefix of a right output.
    ensures answer { Answers (spec_job_of (map string_bytes words.now.items)) (S.files store.old) (I.left input.old)
        (Shows result (O.held output.old) (O.held output.new) (E.held errors.old) (E.held errors.new) (E.faults errors.old) (E.faults errors.new)) }

    // In any case: `errors` gets the message of the status, or a prefix of it if its count of faults rose.
    ensures message { (message : List ℕ) × IsMessageOf result message
        × Says (E.held errors.old) (E.held errors.new) (E.faults errors.old) (E.faults errors.new) message }
    ensures usage { (result ≡ Status.Usage) ↔ (spec_job_of (map string_bytes words.now.items) ≡ None) }
    ensures done { result ≡ Status.Done → Empties (I.left input.old) (I.left input.new) }
    ensures read_fault { result ≡ Status.ReadFault → IfSome (spec_job_of (map string_bytes words.now.items)) (λ target.
        HasReadCause (I.faults input.old) (I.faults input.new) (S.faults store.old) (S.faults store.new) (S.last_fault store.new) target.file) }
    ensures write_fault { result ≡ Status.WriteFault → Rose (O.faults output.old) (O.faults output.new) }
    ensures no_memory { result ≡ Status.NoMemory → O.held output.new ≡ O.held output.old }

    // No file is created, and none changes.
    ensures files { S.files store.new ≡ S.files store.old }
    ensures current { S.current store.new ≡ None }
{
    // A cycle of one component has one worker.
    let _ = rt;
    let _ = gate;
    match job_of(words) {
        None => {
            let _ = say_usage(errors);
            Status::Usage
        }
        Some(target) => {
            let finish = simulate_target(alloc, target, input, output, store);
            let _ = say(finish, errors);
            finish.status()
        }
    }
}

// Loads the design file, and simulates the component in it.
fn simulate_target<I: Source, O: Sink, S: Store>(
    alloc: Global,
    target: Target<'_>,
    input: &mut I,
    output: &mut O,
    store: &mut S,
) -> Finish
    requires { S.current store.old ≡ None }
    ensures ends { EndsTarget (target_now target.entry) (S.files store.old) (I.left input.old) (O.held output.old) (O.held output.new) result }
    ensures done { result ≡ Finish.Done → Empties (I.left input.old) (I.left input.new) }
    ensures read { result ≡ Finish.ReadFault →
        HasReadCause (I.faults input.old) (I.faults input.new) (S.faults store.old) (S.faults store.new) (S.last_fault store.new) target.entry.file.now }
    ensures write { HasCause (O.faults output.old) (O.faults output.new) (result ≡ Finish.WriteFault) }
    ensures memory { result ≡ Finish.NoMemory → O.held output.new ≡ O.held output.old }
    ensures files { S.files store.new ≡ S.files store.old }
    ensures current { S.current store.new ≡ S.current store.old }
{
    let mut file = Vec::new(alloc);
    match store.load(target.file, MAX_TEXT, &mut file) {
        Loaded::All => simulate_text(alloc, target.class, &file, input, output),
        Loaded::TooLarge => Finish::Refused(1),
        Loaded::Failed => Finish::ReadFault,
        Loaded::NoMemory => Finish::NoMemory,
    }
}

// Simulates the component of this class that a text spells.
fn simulate_text<I: Source, O: Sink>(
    alloc: Global,
    class: &[u8],
    text: &[u8],
    input: &mut I,
    output: &mut O,
) -> Finish
    ensures ends { EndsAs (component_of class.now text.now) (I.left input.old) (O.held output.old) (O.held output.new) result }
    ensures done { result ≡ Finish.Done → Empties (I.left input.old) (I.left input.new) }
    ensures read { HasCause (I.faults input.old) (I.faults input.new) (result ≡ Finish.ReadFault) }
    ensures write { HasCause (O.faults output.old) (O.faults output.new) (result ≡ Finish.WriteFault) }
    ensures memory { result ≡ Finish.NoMemory → O.held output.new ≡ O.held output.old }
{
    let Ok(found) = read_component(alloc, class, text) else {
        return Finish::NoMemory;
    };
    match found {
        Some(component) => simulate_component(alloc, &component, input, output),
        None => Finish::Refused(1),
    }
}

// Orders the blocks of a component, and simulates it. A loop is refused.
fn simulate_component<I: Source, O: Sink>(
    alloc: Global,
    component: &Component,
    input: &mut I,
    output: &mut O,
) -> Finish
    requires { IsRead component.now }
    ensures ends { EndsAs (Some component.now) (I.left input.old) (O.held output.old) (O.held output.new) result }
    ensures done { result ≡ Finish.Done → Empties (I.left input.old) (I.left input.new) }
    ensures read { HasCause (I.faults input.old) (I.faults input.new) (result ≡ Finish.ReadFault) }
    ensures write { HasCause (O.faults output.old) (O.faults output.new) (result ≡ Finish.WriteFault) }
    ensures memory { result ≡ Finish.NoMemory → O.held output.new ≡ O.held output.old }
{
    let Ok(found) = order_of(alloc, component.blocks.as_slice()) else {
        return Finish::NoMemory;
    };
    match found {
        Some(order) => {
            let schedule = Schedule {
                component,
                order: &order,
            };
            simulate(alloc, &schedule, input, output)
        }
        None => Finish::Refused(1),
    }
}
