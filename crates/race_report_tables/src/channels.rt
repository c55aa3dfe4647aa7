//! What was told over channels.

ghost use Rattle.std.specs.Prelude.{◌≡◌, ℕ, ◌<◌, ◌==◌, max, cond, length, slice_index, Some, None, IfOk, OnOk};
ghost use Rattle.race_report_clocks.specs.declared.channel.Channel.{Channel};
ghost use Rattle.race_report_clocks.specs.layer.Channels.{same_channel};
ghost use Rattle.race_report_clocks.specs.layer.Clocks.{is_over};
ghost use Rattle.race_report_tables.specs.layer.Places.{place_of};
ghost use Rattle.race_report_tables.specs.layer.Tables.{clock_at, clock_over, heard_over, added_by, AreApart};

use crate::places::Places;
use crate::row::Row;
use race_report_clocks::Channel;
use std::alloc::Global;
use upc_text::OutOfMemory;

/// For each channel over which something was told, a row in a list.
#[derive(Drop)]
pub struct Channels {
    pub places: Places,
    pub rows: Vec<Row>,
}

impl Channels {
    /// Nothing was told.
    pub fn new(alloc: Global) -> Channels
        ensures apart { AreApart result }
        ensures silent { (k : Channel) (u : ℕ) → clock_over result k u ≡ 0 }
    {
        Channels {
            places: Places::new(alloc),
            rows: Vec::new(alloc),
        }
    }

    // One more channel has a row, in which each number is 0: its place.
    fn add(&mut self, alloc: Global, channel: Channel) -> Result<usize, OutOfMemory>
        requires apart { AreApart self.old }
        requires absent { place_of self.old.places channel ≡ None }
        ensures apart { OnOk result (AreApart self.new) }
        ensures place { IfOk result (λ i. place_of self.new.places channel ≡ Some i) }
        ensures same { OnOk result ((k : Channel) (u : ℕ) → clock_over self.new k u ≡ clock_over self.old k u) }
    {
        let place = self.rows.len();
        self.rows.push(Row::new(alloc))?;
        self.places.put(channel, place)?;
        Ok(place)
    }

    // The place of a channel's row; it is made where there was none.
    fn open(&mut self, alloc: Global, channel: Channel) -> Result<usize, OutOfMemory>
        requires { AreApart self.old }
        ensures apart { OnOk result (AreApart self.new) }
        ensures place { IfOk result (λ i. place_of self.new.places channel ≡ Some i) }
        ensures same { OnOk result ((k : Channel) (u : ℕ) → clock_over self.new k u ≡ clock_over self.old k u) }
    {
        match self.places.get(channel) {
            Some(place) => Ok(place),
            None => self.add(alloc, channel),
        }
    }

    // All that a row says is told over the channel.
    fn tell(&mut self, alloc: Global, channel: Channel, row: &Row) -> Result<(), OutOfMemory>
        requires { AreApart self.old }
        ensures apart { OnOk result (AreApart self.new) }
        ensures told { OnOk result ((k : Channel) (u : ℕ) → clock_over self.new k u
            ≡ max (clock_over self.old k u) (cond (same_channel channel k) (slice_index row.now u) 0)) }
    {
        let place = self.open(alloc, channel)?;
        self.rows[place].join(row)?;
        Ok(())
    }

    // All that was told over the channel is in the row.
    fn hear(&self, channel: Channel, row: &mut Row) -> Result<(), OutOfMemory>
        requires { AreApart self.now }
        ensures { OnOk result ((u : ℕ) →
            slice_index row.new u ≡ max (slice_index row.old u) (clock_over self.now channel u)) }
    {
        match self.places.get(channel) {
            Some(place) => row.join(&self.rows[place]),
            None => Ok(()),
        }
    }
}

/// All that was told over a channel, if there is one, is in the row with this number.
pub fn hear_at(
    rows: &mut Vec<Row>,
    at: usize,
    channels: &Channels,
    channel: Option<Channel>,
) -> Result<(), OutOfMemory>
    requires within { at < length rows.old.items }
    requires apart { AreApart channels.now }
    ensures many { OnOk result (length rows.new.items ≡ length rows.old.items) }
    ensures heard { OnOk result ((t u : ℕ) → clock_at rows.new.items t u
        ≡ max (clock_at rows.old.items t u) (cond (at == t) (heard_over channels.now channel u) 0)) }
{
    match channel {
        Some(channel) => channels.hear(channel, &mut rows[at]),
        None => Ok(()),
    }
}

/// A thread's action that tells something over a channel is in the thread's row. A number past all has no memory.
pub fn raise_at(
    rows: &mut Vec<Row>,
    at: usize,
    index: u32,
    channel: Option<Channel>,
) -> Result<(), OutOfMemory>
    requires { at < length rows.old.items }
    ensures many { OnOk result (length rows.new.items ≡ length rows.old.items) }
    ensures raised { OnOk result ((t u : ℕ) → clock_at rows.new.items t u
        ≡ max (clock_at rows.old.items t u) (cond (at == t) (added_by at index channel u) 0)) }
{
    if channel.is_none() {
        return Ok(());
    }
    match index.checked_add(1) {
        Some(number) => rows[at].raise(at, number),
        None => Err(OutOfMemory),
    }
}

/// All that a row says is told over a channel, if there is one.
pub fn tell_over(
    channels: &mut Channels,
    alloc: Global,
    channel: Option<Channel>,
    row: &Row,
) -> Result<(), OutOfMemory>
    requires { AreApart channels.old }
    ensures apart { OnOk result (AreApart channels.new) }
    ensures told { OnOk result ((k : Channel) (u : ℕ) → clock_over channels.new k u
        ≡ max (clock_over channels.old k u) (cond (is_over k channel) (slice_index row.now u) 0)) }
{
    match channel {
        Some(channel) => channels.tell(alloc, channel, row),
        None => Ok(()),
    }
}
