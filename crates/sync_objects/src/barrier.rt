//! The barrier of a run (UPC 6.6.1).

ghost use Rattle.std.specs.Prelude.{◌≡◌, ◌<◌, length, replicate, true, Some, IfOk, OnErr};
ghost use Rattle.sync_objects.specs.layer.Barrier as said;
ghost use Rattle.sync_objects.specs.layer.Barrier.{attendance_of, with_attendance};
ghost use Rattle.sync_objects.specs.layer.Locks.{told};

use crate::attendance::Attendance;
use block_layout::run_error::BARRIER_MISMATCH;
use std::alloc::Global;
use std::marker::Model;
use upc_text::OutOfMemory;
use upc_values::Mark;

/// The barrier. Contracts see what each thread has done at it.
#[derive(Drop)]
pub struct Barrier {
    attendances: Vec<Attendance>,
}

impl Model for Barrier {
    ghost use Rattle.std.specs.Prelude.{List};
    ghost use Rattle.sync_objects.specs.declared.attendance.Attendance.{Attendance};

    ghost Value = { List Attendance };

    ghost view = { λ b. b.attendances.items };
}

// Whether all have notified the round of this number, from 0.
fn have_notified(attendances: &[Attendance], round: usize) -> bool
    ensures { result ≡ said.all_notified round attendances.now }
{
    attendances
        .iter()
        .all(|attendance| round < attendance.notifies)
}

// Whether the value agrees with those of all in the round.
fn all_agree(attendances: &[Attendance], round: usize, mark: Mark) -> bool
    ensures { result ≡ said.all_agree round mark attendances.now }
{
    attendances
        .iter()
        .all(|attendance| attendance.agrees(round, mark))
}

impl Barrier {
    /// A barrier at which none of so many threads has notified.
    pub fn make(alloc: Global, threads: u32) -> Result<Barrier, OutOfMemory>
        ensures { IfOk result (λ barrier. barrier ≡ replicate threads said.fresh) }
    {
        let mut attendances = Vec::new(alloc);
        for _ in 0..threads {
            attendances.push(Attendance::fresh())?;
        }
        Ok(Barrier { attendances })
    }

    /// How often the thread has notified.
    pub fn notifies(&self, thread: u32) -> usize
        requires { thread < length self.now }
        ensures { result ≡ (attendance_of thread self.now).notifies }
    {
        self.attendances[thread as usize].notifies
    }

    /// Whether the thread may notify its next round: it has waited in the one before.
    pub fn may_notify(&self, thread: u32) -> bool
        requires { thread < length self.now }
        ensures { result ≡ said.may_notify thread self.now }
    {
        self.attendances[thread as usize].is_turn()
    }

    /// The thread notifies its next round, with this value. It has waited in the one before. It takes no memory.
    pub fn notify(&mut self, thread: u32, mark: Mark)
        requires below { thread < length self.old }
        requires turn { said.may_notify thread self.old ≡ true }
        ensures notified { self.new ≡ with_attendance thread (said.notified mark) self.old }
    {
        self.attendances[thread as usize].notify(mark);
    }

    /// Whether the thread may pass its next round: all threads have notified it.
    pub fn may_pass(&self, thread: u32) -> bool
        requires { thread < length self.now }
        ensures { result ≡ said.may_pass thread self.now }
    {
        let round = self.attendances[thread as usize].waits;
        have_notified(self.attendances.as_slice(), round)
    }

    // Whether the value agrees with those of all threads in the thread's next round.
    fn agrees(&self, thread: u32, mark: Mark) -> bool
        requires { thread < length self.now }
        ensures { result ≡ said.all_agree (attendance_of thread self.now).waits mark self.now }
    {
        let round = self.attendances[thread as usize].waits;
        all_agree(self.attendances.as_slice(), round, mark)
    }

    /// The thread waits, in its next round, which all threads have notified. The error: its value differs from
    /// another's of the round; then the barrier stays as it was. It takes no memory.
    pub fn pass(&mut self, thread: u32, mark: Mark) -> Result<(), u8>
        requires below { thread < length self.old }
        requires ready { said.may_pass thread self.old ≡ true }
        ensures answer { said.wait_answer thread mark self.old ≡ Some (told result) }
        ensures waited { IfOk result (λ _. self.new ≡ with_attendance thread said.waited self.old) }
        ensures kept { OnErr result (self.new ≡ self.old) }
    {
        if self.agrees(thread, mark) {
            self.pass_over(thread);
            Ok(())
        } else {
            Err(BARRIER_MISMATCH)
        }
    }

    /// The thread leaves its next round, which all threads have notified, whatever its value is. A history counts a
    /// wait that was refused, too.
    pub fn pass_over(&mut self, thread: u32)
        requires below { thread < length self.old }
        requires ready { said.may_pass thread self.old ≡ true }
        ensures waited { self.new ≡ with_attendance thread said.waited self.old }
    {
        self.attendances[thread as usize].wait();
    }
}
