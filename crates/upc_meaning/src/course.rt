//! A whole thread (C99 5.1.2.2.3; UPC 6.6.1).

ghost use Rattle.std.specs.Prelude.{◌≡◌, ◌-◌, ◌<◌, ◌≤◌, [], IfOk, MatchOption, map};
ghost use Rattle.typed_tree.specs.Beginnings.{view_beginning};
ghost use Rattle.typed_tree.specs.ViewProgram.{view_program};
ghost use Rattle.typed_tree.specs.ViewStatements.{view_function};
ghost use Rattle.source_meaning.specs.Running.{Running};
ghost use Rattle.source_meaning.specs.Threads as mean;
ghost use Rattle.source_meaning.specs.layer.Parts.{told};
ghost use Rattle.source_meaning.specs.Threads.{outcome_of, thread_outcome};
ghost use Rattle.upc_meaning_state.specs.layer.Came.{state_seen};
ghost use Rattle.upc_meaning_settings.specs.layer.Runners.{Fits};
ghost use Rattle.upc_meaning_settings.specs.layer.Settings.{running_seen};
ghost use Rattle.upc_meaning_work.specs.layer.Courses.{comes_to, fresh, main_comes_to, main_entered};
ghost use Rattle.upc_meaning_work.specs.layer.Courses.{running_with, state_with, view_main};
ghost use Rattle.upc_meaning_work.specs.layer.Seen.{meant, with_item};
ghost use Rattle.upc_meaning_work.specs.layer.ViewItems.{view_work};
ghost use Rattle.upc_meaning_work.specs.layer.Evaluations.{Went, seen};

use crate::threads;
use meaning_types::is_main;
use private_store::{MOST_CALLS, Store};
use std::alloc::Global;
use thread_values::int_of;
use typed_tree::{Function, Program};
use upc_meaning_expressions::functions;
use upc_meaning_state::{Progress, Runner, Setting, Step, is_numeric};
use upc_meaning_work::{Evaluation, Flow, Values, Work, Works};
use upc_text::{OutOfMemory, Place};
use upc_values::{Actions, Listing, Mark, Reply, Scalar, ToldEnd, Value};

/// What a thread of a program did, and how it ended or what it wants.
#[derive(Drop)]
pub struct Told {
    pub actions: Actions,
    pub end: ToldEnd,
}

/// The same, with the ticks that it took.
#[derive(Drop)]
pub struct Outcome {
    pub actions: Actions,
    pub ticks: u64,
    pub end: ToldEnd,
}

// The function main, if there is one.
#[tactic(auto, using(upc_meaning_work::proofs::Courses::first_main))]
fn main_of(functions: &[Function]) -> Option<&Function>
    ensures { view_main result ≡ mean.main_of (map view_function functions.now) }
{
    for function in functions {
        if is_main(function) {
            return Some(function);
        }
    }
    None
}

fn main_place(main: Option<&Function>) -> Place
    ensures { (ρ : Running) → result ≡ mean.main_place ρ (view_main main.entry) }
{
    match main {
        Some(function) => function.place,
        None => Place { line: 1, column: 1 },
    }
}

// A thread that has done nothing yet.
fn beginning<'p>(alloc: Global, progress: Progress<'p>) -> Evaluation<'p>
    ensures fresh { seen result ≡ fresh (state_seen result.progress) }
    ensures progress { result.progress ≡ progress.entry }
{
    Evaluation {
        works: Works::new(alloc),
        values: Values::new(alloc),
        flow: Flow::Next,
        free: MOST_CALLS + 1,
        progress,
    }
}

// main has begun; its statements are next.
#[tactic(auto, using(upc_meaning_work::proofs::Courses::mains))]
fn enter_main<'p>(
    evaluation: &mut Evaluation<'p>,
    setting: Setting<'p>,
    main: Option<&'p Function>,
) -> Result<Step<()>, OutOfMemory>
    requires { Fits setting.runner }
    ensures { IfOk result (λ s. Went (running_seen setting.entry) (main_entered (running_seen setting.entry)
        (view_main main.entry) (evaluation.old.free - 1) (seen evaluation.old)) s evaluation.new) }
{
    if evaluation.free == 0 {
        return Err(OutOfMemory);
    }
    match main {
        None => {
            functions::push_return(evaluation, Value::Scalar(Scalar::Int(0)))?;
            Ok(Step::Gives(()))
        }
        Some(function) => {
            functions::push_return(evaluation, functions::blank_of(setting, &function.result))?;
            functions::function_body(evaluation, setting, function, &[])
        }
    }
}

// main is called, and the barrier after it is left to be done.
#[tactic(auto, using(upc_meaning_work::proofs::Courses::main_refused, upc_meaning_work::proofs::Courses::main_goes))]
fn call_main<'p>(
    evaluation: &mut Evaluation<'p>,
    setting: Setting<'p>,
    main: Option<&'p Function>,
) -> Result<Step<()>, OutOfMemory>
    requires fits { Fits setting.runner }
    requires fresh { seen evaluation.old ≡ fresh (state_seen evaluation.old.progress) }
    ensures { IfOk result (λ s. Went (running_seen setting.entry) (main_comes_to (running_seen setting.entry)
        (view_main main.entry) (state_seen evaluation.old.progress)) s evaluation.new) }
{
    let place = main_place(main);
    match evaluation.progress.begin_call(place)? {
        Step::Ends(end) => Ok(Step::Ends(end)),
        Step::Gives(()) => {
            evaluation.push_one(Work::End(place))?;
            enter_main(evaluation, setting, main)
        }
    }
}

// The barrier before main, and main.
#[tactic(auto, using(upc_meaning_work::proofs::Courses::starts))]
fn start<'p>(
    evaluation: &mut Evaluation<'p>,
    setting: Setting<'p>,
    main: Option<&'p Function>,
) -> Result<Step<()>, OutOfMemory>
    requires fits { Fits setting.runner }
    requires fresh { seen evaluation.old ≡ fresh (state_seen evaluation.old.progress) }
    ensures { IfOk result (λ s. Went (running_seen setting.entry) (comes_to (running_seen setting.entry)
        (view_main main.entry) (state_seen evaluation.old.progress)) s evaluation.new) }
{
    match evaluation
        .progress
        .pass(setting.runner, main_place(main), Mark::Start)?
    {
        Step::Ends(end) => Ok(Step::Ends(end)),
        Step::Gives(()) => call_main(evaluation, setting, main),
    }
}

// Takes the first item off that is left, if one is left.
#[tactic(auto, using(upc_meaning_work::proofs::Courses::items))]
fn next_item<'p>(evaluation: &mut Evaluation<'p>, setting: Setting<'p>) -> Option<Work<'p>>
    ensures { MatchOption result
        (meant (running_seen setting.entry) (seen evaluation.old)
        ≡ meant (running_seen setting.entry) (seen evaluation.new)
        × ((seen evaluation.new).works ≡ []))
        (λ work. meant (running_seen setting.entry) (seen evaluation.old)
        ≡ with_item (running_seen setting.entry) (view_work work) (seen evaluation.new)) }
{
    evaluation.works.pop()
}

// The end, where nothing is left to do.
#[tactic(auto, using(upc_meaning_work::proofs::Courses::items))]
fn end<'p>(evaluation: &Evaluation<'p>, setting: Setting<'p>) -> Result<ToldEnd, OutOfMemory>
    requires { (seen evaluation.now).works ≡ [] }
    ensures { IfOk result (λ e. outcome_of (meant (running_seen setting.entry) (seen evaluation.now))
        ≡ told e (state_seen evaluation.now.progress)) }
{
    let v = evaluation.values.top();
    if !is_numeric(&v) {
        return Err(OutOfMemory);
    }
    Ok(ToldEnd::Ended(int_of(&v)))
}

// Does all that is left.
#[tactic(auto, using(upc_meaning_work::proofs::Courses::told_behind_by))]
fn finish<'p>(evaluation: &mut Evaluation<'p>, setting: Setting<'p>) -> Result<ToldEnd, OutOfMemory>
    requires { Fits setting.runner }
    ensures { IfOk result (λ e. outcome_of (meant (running_seen setting.entry) (seen evaluation.old))
        ≡ told e (state_seen evaluation.new.progress)) }
{
    for _ in 0..u64::MAX {
        match next_item(evaluation, setting) {
            None => {
                let end = end(evaluation, setting)?;
                return Ok(end);
            }
            Some(work) => match threads::take(evaluation, setting, work)? {
                Step::Ends(end) => return Ok(end),
                Step::Gives(()) => {}
            },
        }
    }
    Err(OutOfMemory)
}

// A whole thread.
#[tactic(auto, using(upc_meaning_work::proofs::Courses::told_by))]
fn run_thread<'p>(
    evaluation: &mut Evaluation<'p>,
    setting: Setting<'p>,
    main: Option<&'p Function>,
) -> Result<ToldEnd, OutOfMemory>
    requires fits { Fits setting.runner }
    requires fresh { seen evaluation.old ≡ fresh (state_seen evaluation.old.progress) }
    ensures { IfOk result (λ e. outcome_of (comes_to (running_seen setting.entry) (view_main main.entry)
        (state_seen evaluation.old.progress)) ≡ told e (state_seen evaluation.new.progress)) }
{
    match start(evaluation, setting, main)? {
        Step::Ends(end) => Ok(end),
        Step::Gives(()) => {
            let end = finish(evaluation, setting)?;
            Ok(end)
        }
    }
}

// What the thread did.
fn actions_of<'p>(evaluation: Evaluation<'p>) -> Actions
    ensures { result ≡ (state_seen evaluation.entry.progress).actions }
{
    let Evaluation { progress, .. } = evaluation;
    let Progress { actions, .. } = progress;
    Listing::from_vec(actions)
}

// A program as a thread runs it.
fn setting_of(alloc: Global, program: &Program, thread: u32, ticks: u64) -> Setting<'_>
    ensures seen { running_seen result ≡ running_with (view_program program.now)
        (view_beginning program.now.beginning) thread ticks }
    ensures fits { Fits result.runner }
{
    Setting {
        runner: Runner {
            alloc,
            number: thread,
            threads: program.threads(),
            budget: ticks,
            shapes: program.shapes(),
        },
        functions: program.functions(),
        structs: program.structs(),
        shared: program.shared_objects(),
    }
}

// A thread that has done nothing yet.
fn progress_of<'r>(
    alloc: Global,
    program: &Program,
    replies: &'r [Reply],
) -> Result<Progress<'r>, OutOfMemory>
    ensures { IfOk result (λ p. state_seen p ≡ state_with (view_beginning program.now.beginning) replies.now) }
{
    let store = Store::make(alloc, program.private_shapes(), program.private_initials())?;
    Ok(Progress {
        store,
        ticks: 0,
        notified: false,
        actions: Vec::new(alloc),
        replies,
    })
}

/// The outcome of a thread of a program on these replies, with a budget of ticks, by plain evaluation of its typed
/// tree: its actions in order, its ticks, and its end, or the action that it wants next. `Misfit(k)` comes exactly
/// where reply k does not fit the action that asks for it.
pub fn replay_whole<'p>(
    alloc: Global,
    program: &'p Program,
    thread: u32,
    replies: &'p [Reply],
    budget: u64,
) -> Result<Outcome, OutOfMemory>
    requires thread { thread < program.now.threads }
    requires budget { 1 ≤ budget }
    ensures actions { IfOk result (λ outcome. outcome.actions
        ≡ (thread_outcome (view_program program.now) thread budget replies.now).actions) }
    ensures ticks { IfOk result (λ outcome. outcome.ticks
        ≡ (thread_outcome (view_program program.now) thread budget replies.now).ticks) }
    ensures end { IfOk result (λ outcome. outcome.«end»
        ≡ (thread_outcome (view_program program.now) thread budget replies.now).«end») }
{
    let setting = setting_of(alloc, program, thread, budget);
    let progress = progress_of(alloc, program, replies)?;
    let mut evaluation = beginning(alloc, progress);
    let end = run_thread(&mut evaluation, setting, main_of(setting.functions))?;
    let ticks = evaluation.progress.ticks;
    Ok(Outcome {
        actions: actions_of(evaluation),
        ticks,
        end,
    })
}

/// The same without the ticks.
pub fn replay<'p>(
    alloc: Global,
    program: &'p Program,
    thread: u32,
    replies: &'p [Reply],
    ticks: u64,
) -> Result<Told, OutOfMemory>
    requires thread { thread < program.now.threads }
    requires ticks { 1 ≤ ticks }
    ensures actions { IfOk result (λ told. told.actions
        ≡ (thread_outcome (view_program program.now) thread ticks replies.now).actions) }
    ensures end { IfOk result (λ told. told.«end»
        ≡ (thread_outcome (view_program program.now) thread ticks replies.now).«end») }
{
    let Outcome { actions, end, .. } = replay_whole(alloc, program, thread, replies, ticks)?;
    Ok(Told { actions, end })
}
