//! What a thread has done at the barrier (UPC 6.6.1).

ghost use Rattle.std.specs.Prelude.{◌≡◌, ◌<◌, true};
ghost use Rattle.upc_values.specs.History as history;
ghost use Rattle.sync_objects.specs.layer.Barrier as said;

use upc_values::Mark;

/// What a thread has done: how often it has notified and waited, and the values of its last two notifies. As no thread
/// is more than one round ahead of another, no older value is asked for.
#[derive(Clone, Copy)]
pub struct Attendance {
    pub notifies: usize,
    pub waits: usize,
    pub last: Mark,
    pub older: Mark,
}

// Whether the values of a wait and a notify agree.
fn agree(mark: Mark, other: Mark) -> bool
    ensures { result ≡ history.agree mark other }
{
    match mark {
        Mark::Absent => true,
        Mark::Start => matches!(other, Mark::Absent | Mark::Start),
        Mark::Finish => matches!(other, Mark::Absent | Mark::Finish),
        Mark::Given(value) => match other {
            Mark::Absent => true,
            Mark::Given(given) => value == given,
            _ => false,
        },
    }
}

impl Attendance {
    // A thread that has neither notified nor waited.
    pub(crate) fn fresh() -> Attendance
        ensures { result ≡ said.fresh }
    {
        Attendance {
            notifies: 0,
            waits: 0,
            last: Mark::Absent,
            older: Mark::Absent,
        }
    }

    // Whether the thread may notify: it has waited as often as it has notified.
    pub(crate) fn is_turn(&self) -> bool
        ensures { result ≡ said.is_turn self.now }
    {
        self.notifies <= self.waits && self.notifies < usize::MAX
    }

    // The thread, whose turn it is, notifies once more.
    pub(crate) fn notify(&mut self, mark: Mark)
        requires { said.is_turn self.old ≡ true }
        ensures { self.new ≡ said.notified mark self.old }
    {
        self.notifies += 1;
        self.older = self.last;
        self.last = mark;
    }

    // The thread, which has notified more often than it has waited, waits once more.
    pub(crate) fn wait(&mut self)
        requires { self.old.waits < self.old.notifies }
        ensures { self.new ≡ said.waited self.old }
    {
        self.waits += 1;
    }

    // The value of the thread's notify of this round, from 0, if it is one of its last two.
    fn mark_in(&self, round: usize) -> Option<Mark>
        ensures { result ≡ said.mark_in round self.now }
    {
        if round >= self.notifies {
            return None;
        }
        match self.notifies - round {
            1 => Some(self.last),
            2 => Some(self.older),
            _ => None,
        }
    }

    // Whether the value agrees with that of the thread's notify of this round, from 0, if it is one of its last two.
    pub(crate) fn agrees(&self, round: usize, mark: Mark) -> bool
        ensures { result ≡ history.agrees_with mark (said.mark_in round self.now) }
    {
        match self.mark_in(round) {
            Some(other) => agree(mark, other),
            None => true,
        }
    }
}
