//! From the words after the program's name to what they ask for.

ghost use Rattle.std.specs.Prelude.{◌≡◌, ◌≤◌, ◌↔◌, map, Some, None, IfOk, IsTrue, option_map, string_bytes, codes};
ghost use Rattle.std.specs.Result.{IsErrOf};
ghost use Rattle.clap.specs.Words.{found_of, first_of, rows_of};
ghost use Rattle.upc_top_words.specs.declared.call.NoCall.TheVariants.{Usage};
ghost use Rattle.upc_outcomes_words.specs.Line.{IsTakenByClap, found_in};
ghost use Rattle.upc_outcomes_words.specs.Values.{Asked, Asks, IsAllowed, IsFit, lists_count};
ghost use Rattle.upc_outcomes_words.specs.Values.{asked_by, given_plan, plan_in, seeded_plan, every_plan};
ghost use Rattle.upc_outcomes_words.specs.Values.{wants_record};
ghost use Rattle.upc_outcomes_words.specs.layer.Views.{view_call, view_plan};

use crate::call::{Call, Plan};
use crate::command::command;
use crate::picks::picks_in;
use clap::ArgMatches;
use clap::error::ErrorKind;
use std::alloc::Global;
use upc_top_words::{NoCall, first, number_at};

// What `clap` finds in the words.
fn parsed<'a>(alloc: Global, words: &'a [String]) -> Result<ArgMatches<'a>, NoCall>
    ensures taken { IfOk result (λ m. IsTakenByClap (map string_bytes words.entry.now)) }
    ensures found { IfOk result (λ m. rows_of (found_of m) ≡ found_in (map string_bytes words.entry.now)) }
    ensures usage { IsErrOf result Usage → IsTakenByClap (map string_bytes words.entry.now) → ⊥ }
{
    let line = command(alloc)?;
    match line.try_get_matches_from(words) {
        Ok(matches) => Ok(matches),
        Err(error) => {
            if error.kind() == ErrorKind::OutOfMemory {
                return Err(NoCall::Memory);
            }
            Err(NoCall::Usage)
        }
    }
}

// Whether `--record` is given.
fn is_recorded(matches: &ArgMatches<'_>) -> bool
    ensures { result ≡ wants_record (rows_of (found_of matches.now)) }
{
    match first(matches, "record") {
        Some(word) => word == "true",
        None => false,
    }
}

// A list of picks is given.
fn given(
    alloc: Global,
    text: &str,
    recording: bool,
    many: Option<u64>,
    seed: Option<u64>,
) -> Result<Plan, NoCall>
    ensures plan { IfOk result (λ p. given_plan text.now recording many seed ≡ Some (view_plan p)) }
    ensures usage { IsErrOf result Usage → given_plan text.now recording many seed ≡ None }
{
    if many.is_some() || seed.is_some() {
        return Err(NoCall::Usage);
    }
    match picks_in(alloc, text)? {
        Some(picks) if recording => Ok(Plan::Recorded(picks)),
        Some(picks) => Ok(Plan::Given(picks)),
        None => Err(NoCall::Usage),
    }
}

// The lists of picks that the words ask for.
fn plan(alloc: Global, matches: &ArgMatches<'_>) -> Result<Plan, NoCall>
    ensures plan { IfOk result (λ p. plan_in (rows_of (found_of matches.now)) ≡ Some (view_plan p)) }
    ensures usage { IsErrOf result Usage → plan_in (rows_of (found_of matches.now)) ≡ None }
{
    let recording = is_recorded(matches);
    let many = number_at(matches, "schedules");
    let seed = number_at(matches, "seed");
    match (number_at(matches, "all"), first(matches, "picks")) {
        (None, None) if recording => Err(NoCall::Usage),
        (None, None) => Ok(Plan::Seeded(many.unwrap_or(1_000), seed.unwrap_or(1))),
        (Some(_), None) if recording || many.is_some() || seed.is_some() => Err(NoCall::Usage),
        (Some(most), None) => Ok(Plan::Every(most)),
        (None, Some(text)) => given(alloc, text, recording, many, seed),
        (Some(_), Some(_)) => Err(NoCall::Usage),
    }
}

// The values of what was found.
fn asked<'a>(alloc: Global, matches: &ArgMatches<'a>) -> Result<Call<'a>, NoCall>
    ensures call { IfOk result (λ c. asked_by (rows_of (found_of matches.now)) ≡ Some (view_call c)) }
    ensures usage { IsErrOf result Usage → asked_by (rows_of (found_of matches.now)) ≡ None }
{
    let Some(threads) = number_at(matches, "threads") else {
        return Err(NoCall::Usage);
    };
    let Some(file) = first(matches, "FILE") else {
        return Err(NoCall::Usage);
    };
    let plan = plan(alloc, matches)?;
    Ok(Call {
        threads,
        budget: number_at(matches, "budget").unwrap_or(100_000),
        actions: number_at(matches, "actions").unwrap_or(16_384),
        file,
        plan,
    })
}

// Whether there are at most 100,000 lists of at most so many picks.
fn are_few(threads: u64, most: u64) -> bool
    requires one { 1 ≤ threads }
    requires few { threads ≤ 32 }
    ensures { IsTrue result ↔ (lists_count threads most ≤ 100000) }
{
    let mut count = 1;
    for _ in 0..most {
        count = 1 + threads * count;
        if count > 100_000 {
            return false;
        }
    }
    true
}

fn is_fit(threads: u64, plan: &Plan) -> bool
    requires one { 1 ≤ threads }
    requires few { threads ≤ 32 }
    ensures { IsTrue result ↔ IsFit threads (view_plan plan.now) }
{
    match plan {
        Plan::Seeded(many, _) => 1 <= *many && *many <= 100_000,
        Plan::Every(most) => *most <= 64 && are_few(threads, *most),
        Plan::Given(_) => true,
        Plan::Recorded(_) => true,
    }
}

fn is_allowed(call: &Call<'_>) -> bool
    ensures { IsTrue result ↔ IsAllowed (view_call call.now) }
{
    if call.threads < 1 || call.threads > 32 {
        return false;
    }
    if call.budget < 1 || call.budget > 1_000_000_000_000 {
        return false;
    }
    if call.actions < 1 || call.actions > 8_388_608 {
        return false;
    }
    if call.threads * call.actions > 8_388_608 {
        return false;
    }
    is_fit(call.threads, &call.plan)
}

/// What the words after the program's name ask for: `clap` takes them, and their values are in their ranges. `Usage`
/// exactly where they ask for nothing.
pub fn read_words<'a>(alloc: Global, words: &'a [String]) -> Result<Call<'a>, NoCall>
    // The words ask for this call.
    ensures asks { IfOk result (λ c. Asks (map string_bytes words.entry.now) (view_call c)) }
    // They ask for nothing.
    ensures usage { IsErrOf result Usage → (a : Asked) → Asks (map string_bytes words.entry.now) a → ⊥ }
{
    let matches = parsed(alloc, words)?;
    let call = asked(alloc, &matches)?;
    if !is_allowed(&call) {
        return Err(NoCall::Usage);
    }
    Ok(call)
}
