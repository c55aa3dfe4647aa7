//! What a task does: private work by itself, and steps on the shared history in turns.

ghost use Rattle.std.specs.Prelude.{◌≡◌, ◌<◌, [], length, true, Some, None, is_some, IfOk, IfSome, IsNone, OnErr};
ghost use Rattle.std.specs.Prelude.{option_copied};
ghost use mathlib.Core.List.{IsPrefix};
ghost use Rattle.upc_values.specs.declared.action.Action.{Action};
ghost use Rattle.upc_values.specs.declared.journal.Entry.{Entry};
ghost use Rattle.upc_values.specs.Openings.{Opening, IsOpening};
ghost use Rattle.upc_values.specs.History.{reply};
ghost use Rattle.upc_values.specs.Records as records;
ghost use Rattle.upc_values.specs.Ends as ends;
ghost use Rattle.upc_values.specs.Formed.{IsWellFormed};
ghost use Rattle.stack_code.specs.layer.Codes.{Codes};
ghost use Rattle.stack_machine.specs.declared.wish.Wish.TheVariants.{Act};
ghost use Rattle.turn_cell.specs.layer.Members.{longer};
ghost use Rattle.turn_cell.specs.layer.Seats as seats;
ghost use Rattle.turn_cell.specs.layer.Seats.{cell_of, id_of, number_of, opening_of, seen_of, started, IsFree};
ghost use Rattle.upc_task.specs.declared.worker.Pause.TheVariants.{Finished};
ghost use Rattle.upc_task.specs.layer.Sources.{Outcomes, HasOutcomes};
ghost use Rattle.upc_task.specs.layer.Kept.{AreLimits, IsKept, IsSame, StaysKept, Paused, CanEnd, Adds, Leaves};
ghost use Rattle.upc_task.specs.layer.Kept.{Waits, strand_of};
ghost use Rattle.upc_task.specs.layer.Seated.{IsLawful, IsTask, StaysTask, IsSeatOf, Gained, IsInOrder};

use crate::limits::Limits;
use crate::seated::Task;
use crate::worker::{Pause, Worker};
use memory_history::World;
use stack_code::Code;
use std::alloc::{AllocError as OutOfMemory, Global};
use std::sync::Wait;
use turn_cell::{Seat, TurnCell};
use upc_values::{Action, End, Strand};

impl Task {
    /// A task that has done nothing, with a seat of its number that has seen nothing.
    pub fn make(
        alloc: Global,
        code: &Code,
        thread: u32,
        limits: Limits,
        seat: Seat<World>,
    ) -> Result<Task, OutOfMemory>
        requires limits { AreLimits limits }
        requires code { code.now.threads ≡ limits.threads }
        requires thread { thread < limits.threads }
        requires free { IsFree (λ (e : Entry). e.thread) seat }
        requires seat { (number_of seat ≡ thread) × (seen_of seat ≡ []) }
        ensures kept { IfOk result (λ k. (o : Opening) (f : Outcomes) → opening_of seat ≡ Some o → IsOpening o
            → HasOutcomes o code.now limits f → IsTask (cell_of seat) o code.now f k) }
        ensures new { IfOk result (λ k. (k.worker.thread ≡ thread) × (k.worker.limits ≡ limits)
            × (k.worker.«end» ≡ None) × (k.seat ≡ seat)) }
        ensures fresh { IfOk result (λ k. (k.worker.items.items ≡ []) × (k.worker.wish ≡ None)) }
    {
        let worker = Worker::make(alloc, code, thread, limits)?;
        Ok(Task { worker, seat })
    }

    /// Does the private work up to the next wish, after which the task is ready. A ready task stays as it is. It takes
    /// no turn, and adds no item and no entry, also where it finds no memory.
    pub fn work(&mut self, code: &Code) -> Result<(), OutOfMemory>
        requires { self.old.worker.«end» ≡ None }
        ensures kept { IfOk result (λ _. StaysKept code.now self.old.worker self.new.worker) }
        ensures stays { IfOk result (λ _. StaysTask code.now self.old self.new) }
        ensures ready { IfOk result (λ _. is_some self.new.worker.wish ≡ true) }
        ensures same { IsSame self.old.worker self.new.worker × (self.new.worker.«end» ≡ None) }
        ensures items { self.new.worker.items ≡ self.old.worker.items }
        ensures unchanged { is_some self.old.worker.wish ≡ true → self.new.worker ≡ self.old.worker }
        ensures seat { self.new.seat ≡ self.old.seat }
        ensures order { (o : Opening) → IsInOrder o self.old → IsInOrder o self.new }
    {
        self.worker.work(code)?;
        Ok(())
    }

    /// Acts on the wish: at most one new item, and the commits that go with it. The machine is not resumed. Where the
    /// write buffer alone answers, it takes no turn; else it waits for one, and has left it when it returns. A full
    /// record ends. After want of memory the record is as it was, and the task is in order as after any other answer.
    pub fn step<R: Wait>(
        &mut self,
        rt: &R,
        code: &Code,
        cell: &TurnCell<World>,
    ) -> Result<Pause, OutOfMemory>
        requires kept { (f : Outcomes) × IsTask (id_of cell.now) (started cell.now).0 code.now f self.old }
        requires ready { (self.old.worker.«end» ≡ None) × (is_some self.old.worker.wish ≡ true) }
        ensures kept { IfOk result (λ _. (f : Outcomes)
            → IsTask (id_of cell.now) (started cell.now).0 code.now f self.old
            → IsTask (id_of cell.now) (started cell.now).0 code.now f self.new) }
        ensures same { IsSame self.old.worker self.new.worker }
        ensures seat { seats.IsSame self.old.seat self.new.seat }
        ensures gained { Gained self.old.worker.thread (seen_of self.old.seat) (seen_of self.new.seat) }
        ensures pause { IfOk result (λ p. Paused p self.new.worker) }
        ensures adds { IfOk result (λ p.
            Adds p self.old.worker.wish self.old.worker.items.items self.new.worker.items.items) }
        ensures leaves { IfOk result (λ p. Leaves p self.old.worker.wish self.new.worker.wish) }
        ensures waits { IfOk result (λ p. Waits p (started cell.now).0 (seen_of self.new.seat) self.new.worker) }
        ensures full { IfOk result (λ p.
            length self.old.worker.items.items ≡ self.old.worker.limits.actions → p ≡ Finished) }
        ensures lacks { OnErr result (self.new.worker.items.items ≡ self.old.worker.items.items) }
        ensures order { IsInOrder (started cell.now).0 self.new }
    {
        self.worker.reserve()?;
        if self.worker.step_alone() {
            return Ok(Pause::Going);
        }
        let copy = self.worker.copy_wanted()?;
        let mut turn = cell.enter(rt, &mut self.seat);
        let pause = self.worker.step(&mut turn.world, copy);
        turn.world.keeps();
        let _len = turn.world.len();
        cell.leave(&mut self.seat, turn);
        pause
    }

    /// Lets this task's seat see what the other's has seen. It waits for nobody, and takes no memory.
    pub fn meet(&mut self, other: &mut Task, cell: &TurnCell<World>)
        requires cell { (cell_of self.old.seat ≡ id_of cell.now) × (cell_of other.old.seat ≡ id_of cell.now) }
        ensures worker { (self.new.worker ≡ self.old.worker) × (other.new.worker ≡ other.old.worker) }
        ensures seats { IsSeatOf self.old.seat self.new.seat × IsSeatOf other.old.seat other.new.seat }
        ensures begins { IsPrefix (seen_of self.old.seat) (seen_of self.new.seat)
            × IsPrefix (seen_of other.old.seat) (seen_of self.new.seat) }
        ensures seen { (seen_of self.new.seat ≡ longer (seen_of self.old.seat) (seen_of other.old.seat))
            × (seen_of other.new.seat ≡ seen_of other.old.seat) }
        ensures kept { (o : Opening) (p : Codes) (f : Outcomes) → IsTask (id_of cell.now) o p f self.old
            → IsLawful o (seen_of other.old.seat) → IsTask (id_of cell.now) o p f self.new }
    {
        cell.meet(&mut self.seat, &mut other.seat);
    }

    /// Whether an action of a thread has a lawful reply, after the list that the seat has then seen. It waits for a
    /// turn, adds nothing, and takes no memory.
    pub fn would_go<R: Wait>(
        &mut self,
        rt: &R,
        cell: &TurnCell<World>,
        thread: u32,
        action: &Action,
    ) -> bool
        requires cell { cell_of self.old.seat ≡ id_of cell.now }
        requires opening { opening_of self.old.seat ≡ Some (started cell.now).0 }
        requires below { thread < (started cell.now).0.threads }
        requires formed { IsWellFormed (started cell.now).0 (seen_of self.old.seat) action.now }
        ensures answer { result ≡ is_some (reply (started cell.now).0 (seen_of self.new.seat) thread action.now) }
        ensures worker { self.new.worker ≡ self.old.worker }
        ensures seat { IsSeatOf self.old.seat self.new.seat }
        ensures begins { IsPrefix (seen_of self.old.seat) (seen_of self.new.seat) }
        ensures kept { (p : Codes) (f : Outcomes)
            → IsTask (id_of cell.now) (started cell.now).0 p f self.old
            → IsTask (id_of cell.now) (started cell.now).0 p f self.new }
    {
        let turn = cell.enter(rt, &mut self.seat);
        let goes = turn.world.is_legal(thread, action);
        turn.world.keeps();
        let _len = turn.world.len();
        cell.leave(&mut self.seat, turn);
        goes
    }

    /// The action that waits for its reply, None exactly where there is none.
    pub fn wanted(&self) -> Option<&Action>
        ensures none { IsNone result → (a : Action) → self.now.worker.wish ≡ Some (Act a) → ⊥ }
        ensures some { IfSome result (λ a. self.now.worker.wish ≡ Some (Act a.now)) }
    {
        self.worker.wanted()
    }

    /// The task's end, None exactly where it has none.
    pub fn end(&self) -> Option<&End>
        ensures { option_copied result ≡ self.now.worker.«end» }
    {
        self.worker.end()
    }

    /// Whether the task has its end.
    pub fn has_ended(&self) -> bool
        ensures { result ≡ is_some self.now.worker.«end» }
    {
        self.worker.has_ended()
    }

    /// Whether the task has a wish that has not been answered.
    pub fn is_ready(&self) -> bool
        ensures { result ≡ is_some self.now.worker.wish }
    {
        self.worker.is_ready()
    }

    /// Whether the task's last item is a Stall.
    pub fn is_stalled(&self) -> bool
        ensures { result ≡ records.is_stall (records.last_item self.now.worker.items.items) }
    {
        self.worker.is_stalled()
    }

    /// Whether the task's last item is a Beat or a Stall.
    pub fn is_pausing(&self) -> bool
        ensures { result ≡ ends.is_pause (records.last_item self.now.worker.items.items) }
    {
        self.worker.is_pausing()
    }

    /// The number of the task's thread.
    pub fn thread(&self) -> u32
        ensures { result ≡ self.now.worker.thread }
    {
        self.worker.thread()
    }

    /// Gives a task that stands at a Beat or a Stall its end: Halted, or at a Stall Deadlocked with what it wants.
    pub fn end_as(&mut self, end: End)
        requires open { self.old.worker.«end» ≡ None }
        requires can { CanEnd self.old.worker «end» }
        ensures kept { (p : Codes) → StaysTask p self.old self.new }
        ensures is { self.new.worker ≡ record self.old.worker { «end» = Some «end» } }
        ensures seat { self.new.seat ≡ self.old.seat }
    {
        self.worker.end_as(end);
    }

    /// The strand of a task that has its end, and its seat. It takes no memory.
    pub fn into_parts(self) -> (Strand, Seat<World>)
        requires { is_some self.worker.«end» ≡ true }
        ensures strand { (o : Opening) (p : Codes) (f : Outcomes)
            → IsKept o p f (seen_of self.seat) self.worker → result.0 ≡ strand_of f self.worker }
        ensures seat { result.1 ≡ self.seat }
    {
        let Task { worker, seat, .. } = self;
        (worker.into_strand(), seat)
    }
}
