//! Lists of picks.

ghost use Rattle.std.specs.Prelude.{◌≡◌, ◌<◌, ◌++◌, ◌∷◌, IfOk, map, length};
ghost use Rattle.outcomes.specs.Schedules.{lists};
ghost use Rattle.outcomes.specs.code.Prefixed.{begun};

use std::alloc::{AllocError as OutOfMemory, Global};

// A list with one pick more, at its front.
fn with_first(alloc: Global, first: u32, picks: &[u32]) -> Result<Vec<u32>, OutOfMemory>
    ensures { IfOk result (λ all. all.items ≡ first ∷ picks.now) }
{
    let mut all = Vec::new(alloc);
    all.push(first)?;
    all.extend_from_slice(picks)?;
    Ok(all)
}

// Appends each list with this pick at its front.
fn add_begun(
    alloc: Global,
    first: u32,
    lists: &[Vec<u32>],
    all: &mut Vec<Vec<u32>>,
) -> Result<(), OutOfMemory>
    ensures { IfOk result (λ _. map (λ v. v.items) all.new.items
        ≡ map (λ v. v.items) all.old.items ++ begun first (map (λ v. v.items) lists.now)) }
{
    for picks in lists {
        all.push(with_first(alloc, first, picks.as_slice())?)?;
    }
    Ok(())
}

/// Every list of at most `most` picks, each below `threads`.
pub fn every_list(alloc: Global, threads: u32, most: u32) -> Result<Vec<Vec<u32>>, OutOfMemory>
    ensures { IfOk result (λ all. map (λ v. v.items) all.items ≡ lists threads most) }
{
    let mut all = Vec::new(alloc);
    all.push(Vec::new(alloc))?;
    if most == 0 {
        return Ok(all);
    }
    let shorter = every_list(alloc, threads, most - 1)?;
    for first in 0..threads {
        add_begun(alloc, first, shorter.as_slice(), &mut all)?;
    }
    Ok(all)
}

// A source of numbers that look like chance (splitmix64, by Steele, Lea and Flood).
#[derive(Drop)]
struct Dice {
    state: u64,
}

impl Dice {
    fn next(&mut self) -> u64 {
        self.state = self.state.wrapping_add(0x9e37_79b9_7f4a_7c15);
        let mixed = (self.state ^ (self.state >> 30)).wrapping_mul(0xbf58_476d_1ce4_e5b9);
        let again = (mixed ^ (mixed >> 27)).wrapping_mul(0x94d0_49bb_1331_11eb);
        again ^ (again >> 31)
    }

    // A number below `many`.
    fn below(&mut self, many: u32) -> u32
        requires { 0 < many }
        ensures { result < many }
    {
        (self.next() % u64::from(many)) as u32
    }
}

// One list: 4, 8, .. or 256 picks, in bursts of at most 1, 2, 4, 8 or 16 of one thread.
fn one_list(alloc: Global, dice: &mut Dice, threads: u32) -> Result<Vec<u32>, OutOfMemory>
    requires { 0 < threads }
{
    let most = 4u32 << dice.below(7);
    let longest = 1u32 << dice.below(5);
    let mut picks = Vec::new(alloc);
    let mut pick = 0;
    let mut left = 0;
    for _ in 0..most {
        if left == 0 {
            pick = dice.below(threads);
            left = 1 + dice.below(longest);
        }
        left -= 1;
        picks.push(pick)?;
    }
    Ok(picks)
}

/// So many lists of picks, made from a seed: equal ones from an equal seed.
pub fn seeded(
    alloc: Global,
    threads: u32,
    many: u32,
    seed: u64,
) -> Result<Vec<Vec<u32>>, OutOfMemory>
    requires { 0 < threads }
    ensures { IfOk result (λ all. length all.items ≡ many) }
{
    let mut dice = Dice { state: seed };
    let mut all = Vec::new(alloc);
    for _ in 0..many {
        all.push(one_list(alloc, &mut dice, threads)?)?;
    }
    Ok(all)
}
