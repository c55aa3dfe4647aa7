//! A call of the library goes on, up to the next action that is wanted, or to its end.

ghost use Rattle.std.specs.Prelude.{◌≡◌, ◌<◌, ℕ, List, Option, IfOk, IfSome, IsTrue, OnOk, false, Some, None};
ghost use Rattle.block_layout.specs.declared.kind.Kind.{Kind};
ghost use Rattle.upc_values.specs.Formed as formed;
ghost use Rattle.upc_values.specs.declared.action.Reply.{Reply};
ghost use Rattle.thread_values.specs.layer.Asking.{IsHeldReply};
ghost use Rattle.upc_library.specs.layer.Wishes.{IsWish, RefusesSo};
ghost use Rattle.upc_library.specs.declared.copying.CopyWish.TheVariants as wishes;
ghost use Rattle.stack_machine.specs.code.Bodies.{Body};
ghost use Rattle.stack_machine.specs.code.Calls.{left_of, turns_left, replies_there, IsUnfinished, WritesHeld};
ghost use Rattle.stack_machine.specs.code.Calls.{ActsOnly, fits_read};
ghost use Rattle.stack_machine.specs.code.Kept.{HoldsHeld};
ghost use Rattle.stack_machine.specs.code.Walking.{IsInside, IsHalted, IsAnswered, IsAnsweredOrOver};
ghost use Rattle.stack_machine.specs.code.Walking.{HasGoneOn, IsWalked, IsRefusal, IfGoing};

use crate::open_calls::Walk;
use crate::progress::Progress;
use crate::wish::Halt;
use block_layout::{Kind, LocalPtr};
use stack_code::Code;
use std::alloc::Global;
use thread_values::{is_read, kept, reply_fits, scalar_of};
use upc_library::CopyWish;
use upc_text::Place;
use upc_values::{Action, Refused, Reply, Scalar, Value};

// Whether a reply gives a value that a read of a cell of this kind may give.
fn fits_read(code: &Code, kind: Option<Kind>, reply: &Reply) -> bool
    ensures value { result ≡ fits_read code.now.threads code.now.shapes kind reply.now }
    ensures held { IsTrue result → IsHeldReply code.now.threads code.now.shapes reply.now }
{
    match (reply, kind) {
        (Reply::Value(v), Some(kind)) => is_read(code.threads(), code.shapes(), kind, v),
        _ => false,
    }
}

// Whether a reply fits an action, where a read is of a cell of this kind.
fn fits(code: &Code, kind: Option<Kind>, action: &Action, reply: &Reply) -> bool
    ensures value { result ≡ formed.fits code.now.threads code.now.shapes kind action.now reply.now }
    ensures held { IsTrue result → IsHeldReply code.now.threads code.now.shapes reply.now }
{
    match action {
        Action::Read { .. } => fits_read(code, kind, reply),
        _ => reply_fits(code.threads(), code.shapes(), action, reply),
    }
}

impl Progress {
    // An action is answered by the reply that is there.
    fn act(&mut self, walk: &Walk, action: Action, place: Place, code: &Code) -> Result<Reply, Halt>
        requires { IsWish (left_of code.now.shapes walk.now) (wishes.Act action) }
        ensures goes { (thread budget : ℕ) (given : List Reply) (b : Body)
            → IsInside code.now thread budget given place (left_of code.now.shapes walk.now) b self.old
            → IsAnswered code.now thread budget given place (left_of code.now.shapes walk.now) b result self.new }
        ensures held { IfOk result (IsHeldReply code.now.threads code.now.shapes) }
        ensures kept { self.new ≡ record self.old { reply = self.new.reply } }
        ensures taken { OnOk result (replies_there self.new.reply < replies_there self.old.reply) }
    {
        match self.reply.take() {
            None => Err(Halt::Asks(action, self.ticks)),
            Some(reply) => {
                if !fits(code, walk.reads(), &action, &reply) {
                    return Err(Halt::Memory);
                }
                Ok(reply)
            }
        }
    }

    // A private cell is read.
    fn load_cell(
        &self,
        walk: &Walk,
        p: LocalPtr,
        kind: Kind,
        place: Place,
        code: &Code,
    ) -> Result<Reply, Halt>
        requires wish { IsWish (left_of code.now.shapes walk.now) (wishes.LoadPrivate p kind) }
        requires store { HoldsHeld code.now.threads code.now.shapes self.now.store }
        ensures goes { (thread budget : ℕ) (given : List Reply) (b : Body)
            → IsInside code.now thread budget given place (left_of code.now.shapes walk.now) b self.now
            → IsAnswered code.now thread budget given place (left_of code.now.shapes walk.now) b result self.now }
        ensures held { IfOk result (IsHeldReply code.now.threads code.now.shapes) }
    {
        match p {
            LocalPtr::Shared { .. } => Err(Halt::Memory),
            _ => match self.store.load(&p, kind) {
                Err(error) => Err(self.fault(error, place)),
                Ok(v) => Ok(Reply::Value(scalar_of(&v))),
            },
        }
    }

    // A private cell is written.
    fn save_cell(
        &mut self,
        walk: &Walk,
        p: LocalPtr,
        kind: Kind,
        v: Scalar,
        place: Place,
        code: &Code,
    ) -> Result<Reply, Halt>
        requires wish { IsWish (left_of code.now.shapes walk.now) (wishes.StorePrivate p kind v) }
        requires store { HoldsHeld code.now.threads code.now.shapes self.old.store }
        requires values { WritesHeld code.now.threads code.now.shapes (left_of code.now.shapes walk.now) }
        ensures goes { (thread budget : ℕ) (given : List Reply) (b : Body)
            → IsInside code.now thread budget given place (left_of code.now.shapes walk.now) b self.old
            → IsAnswered code.now thread budget given place (left_of code.now.shapes walk.now) b result self.new }
        ensures held { IfOk result (IsHeldReply code.now.threads code.now.shapes) }
        ensures store { HoldsHeld code.now.threads code.now.shapes self.new.store }
        ensures kept { self.new ≡ record self.old { store = self.new.store } }
    {
        match p {
            LocalPtr::Shared { .. } => Err(Halt::Memory),
            _ => match self.store.store(&p, kind, kept(kind, Value::Scalar(v))) {
                Err(error) => Err(self.fault(error, place)),
                Ok(()) => Ok(Reply::Done),
            },
        }
    }

    // What the call asks for is done, if it asks for anything.
    fn answer(
        &mut self,
        walk: &Walk,
        wish: CopyWish,
        place: Place,
        code: &Code,
    ) -> Result<Option<Reply>, Halt>
        requires wish { IsWish (left_of code.now.shapes walk.now) wish }
        requires store { HoldsHeld code.now.threads code.now.shapes self.old.store }
        requires values { WritesHeld code.now.threads code.now.shapes (left_of code.now.shapes walk.now) }
        ensures goes { (thread budget : ℕ) (given : List Reply) (b : Body)
            → IsInside code.now thread budget given place (left_of code.now.shapes walk.now) b self.old
            → IsAnsweredOrOver code.now thread budget given place (left_of code.now.shapes walk.now) b result self.new }
        ensures held { IfOk result (λ r. IfSome r (IsHeldReply code.now.threads code.now.shapes)) }
        ensures store { HoldsHeld code.now.threads code.now.shapes self.new.store }
        ensures kept { self.new ≡ record self.old { store = self.new.store; reply = self.new.reply } }
        ensures unfinished { IfOk result (λ r. IfSome r (λ _. IsUnfinished (left_of code.now.shapes walk.now))) }
        ensures taken { IfOk result (λ r. IfSome r (λ _. ActsOnly (left_of code.now.shapes walk.now)
            → replies_there self.new.reply < replies_there self.old.reply)) }
    {
        let answer = match wish {
            CopyWish::Finished => return Ok(None),
            CopyWish::Act(action) => self.act(walk, action, place, code),
            CopyWish::LoadPrivate(p, kind) => self.load_cell(walk, p, kind, place, code),
            CopyWish::StorePrivate(p, kind, v) => self.save_cell(walk, p, kind, v, place, code),
        };
        match answer {
            Err(halt) => Err(halt),
            Ok(reply) => Ok(Some(reply)),
        }
    }

    // How a call ends that is refused so.
    pub(crate) fn refused(&self, refused: Refused, place: Place) -> Halt
        ensures { IsRefusal refused place self.now.ticks result }
    {
        match refused {
            Refused::Error(code) => self.fault(code, place),
            Refused::Memory => Halt::Memory,
        }
    }

    // One thing that the call asks for is done. Whether the call is over.
    fn walk_one(
        &mut self,
        walk: &mut Walk,
        place: Place,
        code: &Code,
        alloc: Global,
    ) -> Result<bool, Halt>
        requires store { HoldsHeld code.now.threads code.now.shapes self.old.store }
        requires values { WritesHeld code.now.threads code.now.shapes (left_of code.now.shapes walk.old) }
        ensures goes { (thread budget : ℕ) (given : List Reply) (b : Body)
            → IsInside code.now thread budget given place (left_of code.now.shapes walk.old) b self.old
            → HasGoneOn code.now thread budget given place (left_of code.now.shapes walk.new) b result self.new }
        ensures values { IfGoing result
            (WritesHeld code.now.threads code.now.shapes (left_of code.now.shapes walk.new)) }
        ensures store { HoldsHeld code.now.threads code.now.shapes self.new.store }
        ensures kept { self.new ≡ record self.old { store = self.new.store; reply = self.new.reply } }
        ensures falls { IfOk result (λ over. over ≡ false
            → turns_left walk.new self.new.reply < turns_left walk.old self.old.reply) }
    {
        let wish = walk.wish(alloc)?;
        match self.answer(walk, wish, place, code) {
            Err(halt) => Err(halt),
            Ok(None) => Ok(true),
            Ok(Some(reply)) => match walk.take(alloc, &reply, code.shapes()) {
                Err(e) => Err(self.refused(e, place)),
                Ok(()) => Ok(false),
            },
        }
    }

    /// The call goes on, up to the next action that is wanted, or to its end.
    pub(crate) fn walk_on(
        &mut self,
        walk: &mut Walk,
        place: Place,
        code: &Code,
        alloc: Global,
    ) -> Result<(), Halt>
        requires store { HoldsHeld code.now.threads code.now.shapes self.old.store }
        requires values { WritesHeld code.now.threads code.now.shapes (left_of code.now.shapes walk.old) }
        ensures goes { (thread budget : ℕ) (given : List Reply) (b : Body)
            → IsInside code.now thread budget given place (left_of code.now.shapes walk.old) b self.old
            → IsWalked code.now thread budget given place (left_of code.now.shapes walk.new) b result self.new }
        ensures values { IfGoing result
            (WritesHeld code.now.threads code.now.shapes (left_of code.now.shapes walk.new)) }
        ensures store { HoldsHeld code.now.threads code.now.shapes self.new.store }
        ensures kept { self.new ≡ record self.old { store = self.new.store; reply = self.new.reply } }
    {
        loop {
            match self.walk_one(walk, place, code, alloc) {
                Err(halt) => return Err(halt),
                Ok(true) => return Ok(()),
                Ok(false) => {}
            }
        }
    }
}
