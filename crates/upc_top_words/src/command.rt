//! The command line, as it is declared to `clap`.

ghost use Rattle.std.specs.Prelude.{◌≡◌, IfOk, false, Some, None, [], ◌∷◌, codes};
ghost use Rattle.clap.specs.Words.{app_of, rule_of, with_rule};
ghost use Rattle.upc_top_words.specs.Line.{upc_app, bare_app, word_rule, record_rule, number_rule};
ghost use Rattle.upc_top_words.specs.Line.{threads_rule, budget_rule, actions_rule};

use clap::builder::ValueParser;
use clap::{Arg, ArgAction, Command};
use std::alloc::{AllocError as OutOfMemory, Global};

// A word that has to be there, known by its place.
fn word<'a>(alloc: Global, id: &'a str) -> Arg<'a>
    ensures rule { rule_of result ≡ word_rule id.entry.now }
    ensures own { result.global ≡ false }
{
    Arg::new(alloc, id).required(true).action(ArgAction::Set)
}

// The word that may stand after all others.
fn record<'a>(alloc: Global) -> Arg<'a>
    ensures rule { rule_of result ≡ record_rule }
    ensures own { result.global ≡ false }
{
    Arg::new(alloc, "RECORD").action(ArgAction::Set)
}

// A number from 1 to `most`.
fn number<'a>(alloc: Global, id: &'a str, most: u64) -> Arg<'a>
    ensures rule { rule_of result ≡ number_rule id.entry.now most }
    ensures own { result.global ≡ false }
{
    Arg::new(alloc, id)
        .action(ArgAction::Set)
        .value_parser(ValueParser::unsigned(1, most))
}

fn threads<'a>(alloc: Global) -> Arg<'a>
    ensures rule { rule_of result ≡ threads_rule }
    ensures own { result.global ≡ false }
{
    number(alloc, "threads", 32).short('T').required(true)
}

fn budget<'a>(alloc: Global) -> Arg<'a>
    ensures rule { rule_of result ≡ budget_rule }
    ensures own { result.global ≡ false }
{
    number(alloc, "budget", 1_000_000_000_000)
        .long("budget")
        .default_value("100000000")
}

fn actions<'a>(alloc: Global) -> Arg<'a>
    ensures rule { rule_of result ≡ actions_rule }
    ensures own { result.global ≡ false }
{
    number(alloc, "actions", 8_388_608).long("actions")
}

fn bare<'a>(alloc: Global) -> Command<'a>
    ensures { app_of result ≡ bare_app }
{
    Command::new(alloc, "upc")
        .no_binary_name(true)
        .disable_help_flag(true)
        .disable_version_flag(true)
}

fn with<'a>(command: Command<'a>, arg: Arg<'a>) -> Result<Command<'a>, OutOfMemory>
    requires { arg.global ≡ false }
    ensures { IfOk result (λ c. app_of c ≡ with_rule (app_of command.entry) (rule_of arg.entry)) }
{
    command.arg(arg)
}

/// `upc MODE -T n [--budget n] [--actions n] FILE [RECORD]`.
pub(crate) fn command<'a>(alloc: Global) -> Result<Command<'a>, OutOfMemory>
    ensures { IfOk result (λ c. app_of c ≡ upc_app) }
{
    let line = with(bare(alloc), word(alloc, "MODE"))?;
    let line = with(line, threads(alloc))?;
    let line = with(line, budget(alloc))?;
    let line = with(line, actions(alloc))?;
    let line = with(line, word(alloc, "FILE"))?;
    with(line, record(alloc))
}
