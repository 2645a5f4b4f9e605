ghost use Rattle.std.specs.Prelude.{◌≡◌, OnOk, OnErr, filter};
ghost use Rattle.std.specs.FinMap as map;
ghost use Rattle.nim_store.specs.Keys.{is_not_before, key_of};

use crate::Key;
use nim_base::{Epoch, NoMemory, Value};
use nim_message::Data;
use std::alloc::Global;
use std::collections::BTreeMap;
use std::marker::Model;

/// The frames of data that came to a worker and weren't received yet. Contracts see it as a finite map from keys to
/// values.
#[derive(Drop)]
pub struct Inbox {
    values: BTreeMap<Key, Value>,
}

impl Model for Inbox {
    ghost use Rattle.std.specs.FinMap as map;
    ghost use Rattle.nim_base.specs.Value.{Grid};
    ghost use Rattle.nim_base.specs.contracts.value.Value as value;
    ghost use Rattle.nim_store.specs.Keys.{coded_key, key_cmp};

    ghost Value = { map.FinMap key_cmp Grid };

    ghost coded = { map.code coded_key value.the_row.coded };

    ghost view = { λ s. map.from_entries s.values.entries };
}

impl Inbox {
    /// Has no frame; takes no memory.
    pub fn new(alloc: Global) -> Inbox
        ensures { result ≡ map.empty }
    {
        Inbox {
            values: BTreeMap::new(alloc),
        }
    }

    /// Keeps a frame, in place of one that has the same key. After want of memory the inbox is as it was.
    pub fn keep(&mut self, frame: Data) -> Result<(), NoMemory>
        ensures ok { OnOk result (self.new ≡ map.insert self.old (key_of frame) frame.value) }
        ensures err { OnErr result (self.new ≡ self.old) }
    {
        let key = Key::of(&frame);
        self.values.insert(key, frame.value)?;
        Ok(())
    }

    /// Whether there is a frame of this key.
    pub fn has(&self, key: &Key) -> bool
        ensures { result ≡ map.contains_key self.now key.now }
    {
        self.values.contains_key(key)
    }

    /// Takes the value of the frame of this key; `None` exactly where there is none. Takes no memory.
    pub fn take(&mut self, key: &Key) -> Option<Value>
        ensures value { result ≡ map.get self.old key.now }
        ensures rest { self.new ≡ map.remove self.old key.now }
    {
        self.values.remove(key)
    }

    /// Lets go of the frames of earlier epochs; all others stay. Takes no memory.
    pub fn forget_before(&mut self, epoch: Epoch)
        ensures { self.new ≡ map.retain_keys self.old (is_not_before epoch) }
    {
        retain_from(&mut self.values, epoch);
    }
}

fn retain_from(values: &mut BTreeMap<Key, Value>, epoch: Epoch)
    ensures { values.new.entries ≡ filter (λ entry. is_not_before epoch entry.0) values.old.entries }
{
    values.retain(|key, _| epoch <= key.epoch);
}
