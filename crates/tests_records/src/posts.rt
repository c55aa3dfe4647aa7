//! Two threads, of which one posts numbers and has them back with something added.

ghost use Rattle.std.specs.Prelude.{◌≡◌, ◌+◌, ◌<◌};
ghost use Rattle.post_box.specs.layer.Boxes.{IsFree, IsIdle, WaitsFor, work_of};
ghost use Rattle.tests_records.specs.declared.posts.Number.{Number};

use post_box::{Doer, Owner, PostBox, Work};
use std::alloc::{AllocError as OutOfMemory, Global};
use std::sync::Wait;
use std::test::Fail;
use std::thread::{Threads, join};

// What is added to each number.
#[derive(Drop)]
struct Plus {
    more: u32,
}

// A number.
#[derive(Drop)]
struct Number {
    value: u64,
}

impl Work for Plus {
    type Item = Number;

    ghost takes = { λ p n. n.value < 1000 };

    ghost did = { λ p n m. m.value ≡ n.value + p.more };
}

// Adds to what is posted, and answers how many numbers there were.
fn attend<R: Wait>(rt: &R, post: &PostBox<Plus>, mut doer: Doer<Plus>, more: u32) -> u64
    requires free { IsFree post.now doer }
    requires more { (work_of post.now).more ≡ more }
{
    let mut taken = 0u64;
    for _ in rt.forever() {
        let Some((Number { value }, at)) = post.take(rt, &mut doer) else {
            return taken;
        };
        taken = taken.wrapping_add(at);
        let value = value + more as u64;
        post.give(&mut doer, Number { value });
    }
    unreachable!()
}

// What became of the number that was posted, or the number itself if nobody has taken it.
fn had_back<R: Wait>(rt: &R, post: &PostBox<Plus>, owner: &mut Owner<Plus>) -> u64
    requires { (x : Number) × WaitsFor post.now owner.old x }
    ensures { IsIdle post.now owner.new }
{
    match post.retract(owner) {
        Some(Number { value }) => value,
        None => {
            let Number { value } = post.back(rt, owner);
            value
        }
    }
}

// What became of a number, which may be the number itself where it may be retracted.
fn posted<R: Wait>(
    rt: &R,
    post: &PostBox<Plus>,
    owner: &mut Owner<Plus>,
    value: u64,
    retracts: bool,
) -> u64
    requires idle { IsIdle post.now owner.old }
    requires small { value < 1000 }
    ensures { IsIdle post.now owner.new }
{
    post.post(owner, Number { value }, 1);
    if retracts {
        return had_back(rt, post, owner);
    }
    let Number { value } = post.back(rt, owner);
    value
}

// Posts 0 to 999, and dismisses the doer: whether each came back as it has to.
fn post_all<R: Wait>(
    rt: &R,
    post: &PostBox<Plus>,
    mut owner: Owner<Plus>,
    more: u64,
    retracts: bool,
) -> bool
    requires { IsIdle post.now owner }
{
    let mut fine = true;
    for value in 0..1000 {
        let got = posted(rt, post, &mut owner, value, retracts && value % 2 == 0);
        let done = got == value.wrapping_add(more);
        fine = fine && (done || (retracts && value % 2 == 0 && got == value));
    }
    post.dismiss(owner);
    fine
}

// Whether all came back as they have to, and how many were taken.
fn both<R: Threads + Wait + Sync>(
    rt: &R,
    alloc: Global,
    looks: u32,
    retracts: bool,
) -> Result<(bool, u64), OutOfMemory> {
    let plus = Plus { more: 5 };
    let (post, owner, doer) = PostBox::make(alloc, &plus, looks)?;
    let post = &post;
    let more = plus.more;
    Ok(join(
        rt,
        move || -> bool
            requires { IsIdle post.now owner }
        { post_all(rt, post, owner, more as u64, retracts) },
        move || -> u64
            requires { IsFree post.now doer × ((work_of post.now).more ≡ more) }
        { attend(rt, post, doer, more) },
    ))
}

#[test]
fn what_is_posted_comes_back_done(rt: HostRuntime) -> Result<(), Fail> {
    assert!(rt; both(&rt, rt.alloc(), 100, false)? == (true, 1000));
    Ok(())
}

#[test]
fn who_sleeps_is_woken(rt: HostRuntime) -> Result<(), Fail> {
    assert!(rt; both(&rt, rt.alloc(), 0, false)? == (true, 1000));
    Ok(())
}

#[test]
fn what_nobody_took_is_retracted(rt: HostRuntime) -> Result<(), Fail> {
    let (fine, taken) = both(&rt, rt.alloc(), 100, true)?;
    assert!(rt; fine && 500 <= taken && taken <= 1000);
    Ok(())
}
