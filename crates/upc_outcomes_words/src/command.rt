//! The command line, as it is declared to `clap`.

ghost use Rattle.std.specs.Prelude.{◌≡◌, ◌≤◌, IfOk, true, false, Some, codes};
ghost use Rattle.clap.specs.Words.{app_of, rule_of, with_rule};
ghost use Rattle.upc_top_words.specs.Line.{word_rule, threads_rule};
ghost use Rattle.upc_outcomes_words.specs.Line.{outcomes_app, bare_app, counted_app, chosen_app};
ghost use Rattle.upc_outcomes_words.specs.Line.{range_rule, picks_rule, record_rule};

use clap::builder::ValueParser;
use clap::{Arg, ArgAction, Command};
use std::alloc::{AllocError as OutOfMemory, Global};

// An option that is a number from `least` to `most`.
fn number<'a>(alloc: Global, id: &'a str, least: u64, most: u64) -> Arg<'a>
    ensures rule { rule_of result ≡ range_rule id.entry.now least most }
    ensures own { result.global ≡ false }
{
    Arg::new(alloc, id)
        .long(id)
        .action(ArgAction::Set)
        .value_parser(ValueParser::unsigned(least, most))
}

fn threads<'a>(alloc: Global) -> Arg<'a>
    ensures rule { rule_of result ≡ threads_rule }
    ensures own { result.global ≡ false }
{
    Arg::new(alloc, "threads")
        .action(ArgAction::Set)
        .value_parser(ValueParser::unsigned(1, 32))
        .short('T')
        .required(true)
}

fn picks<'a>(alloc: Global) -> Arg<'a>
    ensures rule { rule_of result ≡ picks_rule }
    ensures own { result.global ≡ false }
{
    Arg::new(alloc, "picks")
        .long("picks")
        .action(ArgAction::Set)
}

fn recording<'a>(alloc: Global) -> Arg<'a>
    ensures rule { rule_of result ≡ record_rule }
    ensures own { result.global ≡ false }
{
    Arg::new(alloc, "record")
        .long("record")
        .action(ArgAction::SetTrue)
}

fn file<'a>(alloc: Global) -> Arg<'a>
    ensures rule { rule_of result ≡ word_rule (codes "FILE") }
    ensures own { result.global ≡ false }
{
    Arg::new(alloc, "FILE")
        .required(true)
        .action(ArgAction::Set)
}

fn bare<'a>(alloc: Global) -> Command<'a>
    ensures { app_of result ≡ bare_app }
{
    Command::new(alloc, "outcomes")
        .no_binary_name(true)
        .disable_help_flag(true)
        .disable_version_flag(true)
}

fn with<'a>(command: Command<'a>, arg: Arg<'a>) -> Result<Command<'a>, OutOfMemory>
    requires { arg.global ≡ false }
    ensures { IfOk result (λ c. app_of c ≡ with_rule (app_of command.entry) (rule_of arg.entry)) }
{
    command.arg(arg)
}

// The threads, and what a run is limited to.
fn counted<'a>(alloc: Global) -> Result<Command<'a>, OutOfMemory>
    ensures { IfOk result (λ c. app_of c ≡ counted_app) }
{
    let line = with(bare(alloc), threads(alloc))?;
    let line = with(line, number(alloc, "budget", 1, 1_000_000_000_000))?;
    with(line, number(alloc, "actions", 1, 8_388_608))
}

// To these the lists of picks.
fn chosen<'a>(alloc: Global) -> Result<Command<'a>, OutOfMemory>
    ensures { IfOk result (λ c. app_of c ≡ chosen_app) }
{
    let line = with(counted(alloc)?, number(alloc, "schedules", 1, 100_000))?;
    let line = with(line, number(alloc, "seed", 0, u64::MAX))?;
    with(line, number(alloc, "all", 0, 64))
}

/// The whole line.
pub(crate) fn command<'a>(alloc: Global) -> Result<Command<'a>, OutOfMemory>
    ensures { IfOk result (λ c. app_of c ≡ outcomes_app) }
{
    let line = with(chosen(alloc)?, picks(alloc))?;
    let line = with(line, recording(alloc))?;
    with(line, file(alloc))
}
