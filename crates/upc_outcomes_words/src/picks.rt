//! A list of picks, read.

ghost use Rattle.std.specs.Prelude.{◌≡◌, IfOk, option_map};
ghost use Rattle.upc_outcomes_words.specs.Picks as pure;
ghost use Rattle.upc_outcomes_words.specs.Picks.{read, with_digit};

use std::alloc::{AllocError as OutOfMemory, Global};

// A number with one digit more.
fn longer(now: Option<u32>, byte: u8) -> Option<u32>
    ensures { result ≡ with_digit now byte }
{
    if byte < b'0' || byte > b'9' {
        return None;
    }
    let more = 10 * u64::from(now.unwrap_or(0)) + u64::from(byte - b'0');
    u32::try_from(more).ok()
}

// Numbers with commas between them.
fn numbers(alloc: Global, text: &[u8]) -> Result<Option<Vec<u32>>, OutOfMemory>
    ensures { IfOk result (λ o. option_map (λ v. v.items) o ≡ read text.now) }
{
    let mut done = Vec::new(alloc);
    let mut now = None;
    for byte in text {
        if *byte == b',' {
            let Some(number) = now else {
                return Ok(None);
            };
            done.push(number)?;
            now = None;
        } else {
            let Some(number) = longer(now, *byte) else {
                return Ok(None);
            };
            now = Some(number);
        }
    }
    let Some(last) = now else {
        return Ok(None);
    };
    done.push(last)?;
    Ok(Some(done))
}

/// The picks that a text is: `none`, or numbers below 2^32 in decimal with a comma between two.
pub fn picks_in(alloc: Global, text: &str) -> Result<Option<Vec<u32>>, OutOfMemory>
    ensures { IfOk result (λ o. option_map (λ v. v.items) o ≡ pure.picks_in text.now) }
{
    if text == "none" {
        return Ok(Some(Vec::new(alloc)));
    }
    numbers(alloc, text.as_bytes())
}
