//! The command by which the words are read, and what it finds in them.
ghost use Rattle.std.specs.Prelude.{◌≡◌, false, map, IfOk, IsErrOf, string_bytes};
ghost use Rattle.clap.specs.Words.{App, app_of, found_of, rows_of, rule_of, with_rule};
ghost use Rattle.pm_words.specs.Command as spec;
ghost use Rattle.pm_words.specs.Command.{AreTaken, found_in};
ghost use Rattle.pm_words.specs.declared.fault.WordsFault.TheVariants as fault;

use crate::fault::WordsFault;
use clap::error::ErrorKind;
use clap::{Arg, ArgMatches, Command};
use std::alloc::{AllocError, Global};

// An option of one value.
fn option<'a>(alloc: Global, name: &'a str) -> Arg<'a>
    ensures rule { rule_of result ≡ spec.option_rule name.entry.now }
    ensures local { result.global ≡ false }
{
    Arg::new(alloc, name).long(name)
}

// The word that names the action.
fn action<'a>(alloc: Global) -> Arg<'a>
    ensures rule { rule_of result ≡ spec.action_rule }
    ensures local { result.global ≡ false }
{
    Arg::new(alloc, "action").required(true)
}

// The words after it.
fn rest<'a>(alloc: Global) -> Arg<'a>
    ensures rule { rule_of result ≡ spec.rest_rule }
    ensures local { result.global ≡ false }
{
    Arg::new(alloc, "rest").num_args(0..)
}

// The command without its arguments.
fn bare<'a>(alloc: Global) -> Command<'a>
    ensures { app_of result ≡ spec.bare_app }
{
    Command::new(alloc, "pymtl")
        .no_binary_name(true)
        .disable_help_flag(true)
}

// The command with one more option.
fn with_option<'a>(
    alloc: Global,
    command: Command<'a>,
    name: &'a str,
) -> Result<Command<'a>, AllocError>
    ensures { IfOk result (λ c. app_of c ≡ with_rule (app_of command.entry) (spec.option_rule name.entry.now)) }
{
    command.arg(option(alloc, name))
}

fn command<'a>(alloc: Global) -> Result<Command<'a>, AllocError>
    ensures { IfOk result (λ c. app_of c ≡ spec.the_app) }
{
    let command = with_option(alloc, bare(alloc), "order")?;
    let command = with_option(alloc, command, "reset")?;
    let command = command.arg(action(alloc))?;
    command.arg(rest(alloc))
}

/// What the command finds in the words.
pub(crate) fn matches_in<'a>(
    alloc: Global,
    words: &'a Vec<String>,
) -> Result<ArgMatches<'a>, WordsFault>
    ensures taken { IfOk result (λ m. AreTaken (map string_bytes words.now.items)) }
    ensures found { IfOk result (λ m. rows_of (found_of m) ≡ found_in (map string_bytes words.now.items)) }
    ensures usage { IsErrOf result fault.Usage → AreTaken (map string_bytes words.now.items) → ⊥ }
{
    let command = command(alloc)?;
    match command.try_get_matches_from(words.as_slice()) {
        Ok(matches) => Ok(matches),
        Err(error) => match error.kind() {
            ErrorKind::OutOfMemory => Err(WordsFault::NoMemory),
            _ => Err(WordsFault::Usage),
        },
    }
}
