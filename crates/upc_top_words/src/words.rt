//! From the words after the program's name to what they ask for.

ghost use Rattle.std.specs.Prelude.{◌≡◌, ◌≤◌, ◌↔◌, ℕ, List, map, Option, Some, None, option_map, IfOk, IfErr, IfSome};
ghost use Rattle.std.specs.Prelude.{IsSome, IsTrue, decimal, string_bytes, codes};
ghost use Rattle.std.specs.Result.{IsErrOf};
ghost use Rattle.clap.specs.Words.{found_of, first_of, rows_of, app_of};
ghost use Rattle.clap.specs.Built.{IsParsedFrom};
ghost use Rattle.clap.specs.declared.parser.matches.ArgMatches.{ArgMatches};
ghost use Rattle.upc_top_words.specs.Line.{IsTakenByClap, found_in, upc_app};
ghost use Rattle.upc_top_words.specs.Values.{Asked, Asks, AsksNothing, IsAllowed, IsInRange, IsSampleNumber};
ghost use Rattle.upc_top_words.specs.Values.{asked_by, copies, judges, mode_in, mode_named, number_in, number_of};
ghost use Rattle.upc_top_words.specs.Values.{view_call};
ghost use Rattle.upc_top_words.specs.code.Given.{IsGiven};
ghost use Rattle.upc_top_words.specs.declared.call.NoCall.TheVariants.{Usage, Memory};

use crate::call::{Call, Mode, NoCall};
use crate::command::command;
use clap::ArgMatches;
use clap::error::ErrorKind;
use itoa::Buffer;
use std::alloc::Global;

// The items of all threads together, in mode `replica` of all pairs of threads, where the words give no number, and at
// most.
const SHARED_ITEMS: u64 = 4_194_304;

const MOST_ITEMS: u64 = 8_388_608;

fn mode_of(word: &str) -> Option<Mode>
    ensures { result ≡ mode_named word.now }
{
    if word == "run" {
        return Some(Mode::Run);
    }
    if word == "record" {
        return Some(Mode::Record);
    }
    if word == "check" {
        return Some(Mode::Check);
    }
    if word == "layout" {
        return Some(Mode::Layout);
    }
    if word == "sample" {
        return Some(Mode::Sample);
    }
    if word == "verify" {
        return Some(Mode::Verify);
    }
    if word == "races" {
        return Some(Mode::Races);
    }
    if word == "replica" {
        return Some(Mode::Replica);
    }
    None
}

fn number(text: &str) -> Option<u64>
    ensures { result ≡ number_of text.now }
{
    match text.parse::<u64>() {
        Ok(number) => Some(number),
        Err(_) => None,
    }
}

/// The first text that was given for a name, if there is one.
pub fn first<'a>(matches: &ArgMatches<'a>, id: &str) -> Option<&'a str>
    ensures { option_map (λ s. s.now) result ≡ first_of id.now (rows_of (found_of matches.now)) }
{
    matches.get_str(id)
}

/// The first number that was given for a name, if there is one.
pub fn number_at(matches: &ArgMatches<'_>, id: &str) -> Option<u64>
    ensures { result ≡ number_in (rows_of (found_of matches.now)) id.now }
{
    match first(matches, id) {
        Some(text) => number(text),
        None => None,
    }
}

fn mode_at(matches: &ArgMatches<'_>) -> Option<Mode>
    ensures { result ≡ mode_in (rows_of (found_of matches.now)) }
{
    match first(matches, "MODE") {
        Some(word) => mode_of(word),
        None => None,
    }
}

// Whether a record is judged in this mode.
fn judges_record(mode: Mode) -> bool
    ensures { result ≡ judges mode }
{
    match mode {
        Mode::Verify => true,
        _ => false,
    }
}

// By how much the items of one thread are multiplied where they are limited.
fn copies(mode: Mode, threads: u64) -> u64
    requires { (1 ≤ threads) × (threads ≤ 32) }
    ensures is { result ≡ copies mode threads }
    ensures some { 1 ≤ result }
    ensures few { result ≤ 1024 }
{
    match mode {
        Mode::Replica => threads * threads,
        _ => threads,
    }
}

// The values of what was found.
fn asked<'a>(matches: &ArgMatches<'a>) -> Option<Call<'a>>
    requires { IsGiven (rows_of (found_of matches.now)) }
    ensures { option_map view_call result ≡ asked_by (rows_of (found_of matches.now)) }
{
    let mode = mode_at(matches)?;
    let threads = number_at(matches, "threads")?;
    let budget = number_at(matches, "budget")?;
    let actions = number_at(matches, "actions").unwrap_or(SHARED_ITEMS / copies(mode, threads));
    let file = first(matches, "FILE")?;
    Some(Call {
        mode,
        threads: threads as u32,
        budget,
        actions,
        file,
        recording: first(matches, "RECORD"),
    })
}

/// The number from 1 to 1,000 of which the text is the plain decimal text.
pub fn sample_number(text: &str) -> Option<u32>
    // It is that number.
    ensures found { IfSome result (λ stages. (1 ≤ stages) × (stages ≤ 1000) × (text.now ≡ decimal stages)) }
    // There is one exactly where the text is one's.
    ensures some { IsSome result ↔ IsSampleNumber text.now }
{
    let mut buffer = Buffer::new();
    for stages in 1..1001u32 {
        if buffer.format(stages) == text {
            return Some(stages);
        }
    }
    None
}

fn is_allowed(call: &Call<'_>) -> bool
    requires { IsInRange (view_call call.now) }
    ensures { IsTrue result ↔ IsAllowed (view_call call.now) }
{
    let items = copies(call.mode, u64::from(call.threads)) * call.actions;
    items <= MOST_ITEMS
        && (call.mode != Mode::Sample || sample_number(call.file).is_some())
        && call.recording.is_some() == judges_record(call.mode)
}

// What `clap` finds in the words.
fn parsed<'a>(alloc: Global, words: &'a [String]) -> Result<ArgMatches<'a>, NoCall>
    ensures taken { IfOk result (λ m. IsTakenByClap (map string_bytes words.entry.now)) }
    ensures found { IfOk result (λ m. rows_of (found_of m) ≡ found_in (map string_bytes words.entry.now)) }
    ensures given { IfOk result (λ m. IsGiven (rows_of (found_of m))) }
    ensures usage { IsErrOf result Usage → IsTakenByClap (map string_bytes words.entry.now) → ⊥ }
{
    let line = command(alloc)?;
    match line.try_get_matches_from(words) {
        Ok(matches) => Ok(matches),
        Err(error) => {
            if error.kind() == ErrorKind::OutOfMemory {
                return Err(NoCall::Memory);
            }
            Err(NoCall::Usage)
        }
    }
}

/// What the words after the program's name ask for: `clap` takes them as `MODE -T n [--budget n] [--actions n] FILE
/// [RECORD]`, all threads together, in mode `replica` all pairs of threads, may have at most 8,388,608 items, in mode
/// `sample` FILE is a number from 1 to 1,000 in plain decimal, and RECORD is there exactly in mode `verify`. `Usage`
/// exactly where the words ask for nothing.
pub fn read_words<'a>(alloc: Global, words: &'a [String]) -> Result<Call<'a>, NoCall>
    // The words ask for this call.
    ensures asks { IfOk result (λ c. Asks (map string_bytes words.entry.now) (view_call c)) }
    // Its values are in their ranges.
    ensures range { IfOk result (λ c. IsInRange (view_call c)) }
    // There is a reason why the words ask for nothing.
    ensures reason { IsErrOf result Usage → AsksNothing (map string_bytes words.entry.now) }
    // They ask for nothing.
    ensures usage { IsErrOf result Usage → (a : Asked) → Asks (map string_bytes words.entry.now) a → ⊥ }
{
    let matches = parsed(alloc, words)?;
    let Some(call) = asked(&matches) else {
        return Err(NoCall::Usage);
    };
    if !is_allowed(&call) {
        return Err(NoCall::Usage);
    }
    Ok(call)
}
