//! The job that words ask for.
ghost use Rattle.std.specs.Prelude.{◌≡◌, map, IfOk, IsErrOf, string_bytes};
ghost use Rattle.clap.specs.Words.{found_of, rows_of};
ghost use Rattle.pm_words.specs.Readings as spec;
ghost use Rattle.pm_words.specs.Entries.{entries_now};
ghost use Rattle.pm_words.specs.Words.{AskFor, entries_of};
ghost use Rattle.pm_words.specs.declared.fault.WordsFault.TheVariants as fault;
ghost use Rattle.pm_words.specs.declared.job.Job.{Job as AnyJob};

use crate::action::{Action, action_of};
use crate::command::matches_in;
use crate::entries::{Entries, entries_in};
use crate::fault::WordsFault;
use crate::job::{Job, Options, Target};
use crate::options::{order_of, reset_of};
use crate::target::target_of;
use std::alloc::Global;

/// The job that the words ask for. They don't include the program's name.
pub fn job_of(alloc: Global, words: &Vec<String>) -> Result<Job, WordsFault>
    ensures job { IfOk result (λ job. AskFor (map string_bytes words.now.items) job) }
    ensures usage { IsErrOf result fault.Usage → (job : AnyJob) → AskFor (map string_bytes words.now.items) job → ⊥ }
{
    let matches = matches_in(alloc, words)?;
    job_in(alloc, &entries_in(&matches))
}

// The job of the entries.
#[tactic(auto, unfolding(crate::specs::Readings::job_in))]
fn job_in(alloc: Global, entries: &Entries) -> Result<Job, WordsFault>
    ensures { spec.Gives (spec.job_in (entries_now entries.now)) result }
{
    let Some(word) = entries.action else {
        return Err(WordsFault::Usage);
    };
    match action_of(word) {
        Some(action) => job_by(alloc, action, entries),
        None => Err(WordsFault::Usage),
    }
}

#[tactic(auto, unfolding(crate::specs::Readings::job_by))]
fn job_by(alloc: Global, action: Action, entries: &Entries) -> Result<Job, WordsFault>
    ensures { spec.Gives (spec.job_by action (entries_now entries.now)) result }
{
    match action {
        Action::Check => Ok(Job::Check(target_alone(alloc, entries)?)),
        Action::Order => Ok(Job::Order(target_alone(alloc, entries)?)),
        Action::Sim => simulation_of(alloc, entries),
    }
}

#[tactic(auto, unfolding(crate::specs::Readings::simulation_of))]
fn simulation_of(alloc: Global, entries: &Entries) -> Result<Job, WordsFault>
    ensures { spec.Gives (spec.simulation_of (entries_now entries.now)) result }
{
    let options = options_of(alloc, entries)?;
    Ok(Job::Sim(target_of(alloc, entries.rest)?, options))
}

// The target, if no option is given.
#[tactic(auto, unfolding(crate::specs::Readings::target_alone))]
fn target_alone(alloc: Global, entries: &Entries) -> Result<Target, WordsFault>
    ensures { spec.Gives (spec.target_alone (entries_now entries.now)) result }
{
    if entries.order.is_some() || entries.reset.is_some() {
        return Err(WordsFault::Usage);
    }
    target_of(alloc, entries.rest)
}

#[tactic(auto, unfolding(crate::specs::Readings::options_of))]
fn options_of(alloc: Global, entries: &Entries) -> Result<Options, WordsFault>
    ensures { spec.Gives (spec.options_of (entries_now entries.now)) result }
{
    let reset = reset_of(entries.reset)?;
    Ok(Options {
        order: order_of(alloc, entries.order)?,
        reset,
    })
}
