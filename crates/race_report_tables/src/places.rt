//! Places in a list, by channel.

ghost use Rattle.std.specs.Prelude.{◌≡◌, cond, Some, None, OnOk};
ghost use Rattle.race_report_clocks.specs.declared.channel.Channel.{Channel};
ghost use Rattle.race_report_clocks.specs.layer.Channels.{same_channel};
ghost use Rattle.race_report_tables.specs.layer.Places.{place_of};

use crate::key::{Key, key_of};
use race_report_clocks::Channel;
use std::alloc::Global;
use std::collections::HashMap;
use upc_text::OutOfMemory;

/// The places of channels in a list.
#[derive(Drop)]
pub struct Places {
    slots: HashMap<Key, usize>,
}

impl Places {
    /// No channel has a place.
    pub fn new(alloc: Global) -> Places
        ensures { (k : Channel) → place_of result k ≡ None }
    {
        Places {
            slots: HashMap::new(alloc),
        }
    }

    /// The place of a channel, if it has one.
    pub fn get(&self, channel: Channel) -> Option<usize>
        ensures { result ≡ place_of self.now channel }
    {
        self.slots.get(&key_of(channel)).copied()
    }

    /// A channel has this place from now on.
    pub fn put(&mut self, channel: Channel, place: usize) -> Result<(), OutOfMemory>
        ensures { OnOk result ((k : Channel) →
            place_of self.new k ≡ cond (same_channel channel k) (Some place) (place_of self.old k)) }
    {
        self.slots.insert(key_of(channel), place)?;
        Ok(())
    }
}
