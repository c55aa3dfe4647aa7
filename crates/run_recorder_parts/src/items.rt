//! Replies and items, from words.

ghost use Rattle.std.specs.Prelude.{◌≡◌};
ghost use Rattle.run_recorder_parts.specs.layer.Readers.{Gives, Reads, same, texts};
ghost use Rattle.run_recorder_parts.specs.layer.Values as reader;

use crate::actions::action;
use crate::composed::scalar;
use crate::fail::Fail;
use crate::fields::{number8, starts};
use crate::parts::{Parts, expect, is, split};
use crate::series::Part;
use std::alloc::Global;
use upc_values::{Item, Reply};

fn flag(word: &[u8]) -> Result<bool, Fail>
    ensures { Gives same result (reader.flag_of word.now) }
{
    if starts(word, b'0') {
        return if is(word, "0") {
            Ok(false)
        } else {
            Err(Fail::Bad)
        };
    }
    if is(word, "1") {
        Ok(true)
    } else {
        Err(Fail::Bad)
    }
}

fn value(alloc: Global, words: &mut Parts<'_, '_>) -> Result<Reply, Fail>
    ensures { Reads same (reader.value_of (texts words.old.rest.now)) result
        (texts words.new.rest.now) }
{
    Ok(Reply::Value(scalar(alloc, words.next()?)?))
}

fn flag_reply(words: &mut Parts<'_, '_>) -> Result<Reply, Fail>
    ensures { Reads same (reader.flag_reply_of (texts words.old.rest.now)) result
        (texts words.new.rest.now) }
{
    Ok(Reply::Flag(flag(words.next()?)?))
}

fn refused(words: &mut Parts<'_, '_>) -> Result<Reply, Fail>
    ensures { Reads same (reader.refused_of (texts words.old.rest.now)) result
        (texts words.new.rest.now) }
{
    Ok(Reply::Refused(number8(words.next()?)?))
}

fn reply(alloc: Global, words: &mut Parts<'_, '_>) -> Result<Reply, Fail>
    ensures { Reads same (reader.reply_of (texts words.old.rest.now)) result
        (texts words.new.rest.now) }
{
    let tag = words.next()?;
    if is(tag, "done") {
        return Ok(Reply::Done);
    }
    if is(tag, "value") {
        return value(alloc, words);
    }
    if is(tag, "flag") {
        return flag_reply(words);
    }
    if is(tag, "refused") {
        return refused(words);
    }
    Err(Fail::Bad)
}

fn did(alloc: Global, words: &mut Parts<'_, '_>) -> Result<Item, Fail>
    ensures { Reads same (reader.did_of (texts words.old.rest.now)) result
        (texts words.new.rest.now) }
{
    let action = action(alloc, words)?;
    expect(words, "->")?;
    let reply = reply(alloc, words)?;
    Ok(Item::Did(action, reply))
}

fn stall(words: &mut Parts<'_, '_>) -> Result<Item, Fail>
    ensures { Reads same (reader.stall_of (texts words.old.rest.now)) result
        (texts words.new.rest.now) }
{
    expect(words, "stall")?;
    Ok(Item::Stall)
}

fn heads(text: &str, words: &Parts<'_, '_>) -> bool
    ensures { result ≡ reader.heads text.now (texts words.now.rest.now) }
{
    match words.rest {
        [first, ..] => is(*first, text),
        [] => false,
    }
}

fn item_words(alloc: Global, words: &mut Parts<'_, '_>) -> Result<Item, Fail>
    ensures { Reads same (reader.item_words_of (texts words.old.rest.now)) result
        (texts words.new.rest.now) }
{
    if heads("stall", words) {
        return stall(words);
    }
    did(alloc, words)
}

fn item(alloc: Global, line: &[u8]) -> Result<Item, Fail>
    ensures { Gives same result (reader.item_of line.now) }
{
    let all = split(alloc, line, b' ')?;
    let mut words = Parts { rest: &all };
    let item = item_words(alloc, &mut words)?;
    if words.end() {
        Ok(item)
    } else {
        Err(Fail::Bad)
    }
}

impl Part for Item {
    ghost use Rattle.run_recorder_parts.specs.layer.Readers.{each};
    ghost use Rattle.run_recorder_parts.specs.layer.Values.{item_of};

    ghost of = { each item_of };

    fn read(alloc: Global, _at: u64, lines: &mut Parts<'_, '_>) -> Result<Item, Fail> {
        let line = lines.next()?;
        item(alloc, line)
    }
}
