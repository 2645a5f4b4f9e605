ghost use Rattle.std.specs.Prelude.{◌≡◌, ◌<◌, ◌∷◌, [], List, length, IfOk, OnErr, MatchOption, unwrap_or};
ghost use Rattle.nim_patch.specs.Cache as spec;
ghost use Rattle.nim_patch.specs.Uses.{StandsFor, Use, hit, patch_key, same_copies, same_key, use_of};

use crate::kept::{Kept, Key};
use crate::{Patch, PatchCopy};
use lru::LruCache;
use nim_base::NoMemory;
use std::alloc::Global;
use std::marker::Model;
use std::num::NonZeroUsize;

/// How many patches are kept at most.
const MOST: usize = 64;

/// The patches that workers have, by the blocks of an instance and of the one before it. Contracts see the list of
/// kept patches, the most recently used first, each with its key and its number.
#[derive(Drop)]
pub struct PatchCache {
    kept: LruCache<Key, Kept>,
}

impl Model for PatchCache {
    ghost use Rattle.std.specs.Prelude.{◌≡◌, List};
    ghost use Rattle.std.specs.Coded.{coded_list, coded×};
    ghost use Rattle.nim_patch.specs.Cache.{IsValid};
    ghost use Rattle.nim_patch.specs.Uses.{Use};
    ghost use Rattle.nim_patch.specs.contracts.kept.Key as key_type;
    ghost use Rattle.nim_patch.specs.contracts.kept.Kept as kept_type;

    ghost Value = { List Use };

    ghost coded = { coded_list (coded× key_type.the_row.coded kept_type.the_row.coded) };

    ghost view = { λ c. c.kept.entries };

    ghost invariant = { λ c. (c.kept.cap ≡ 64) × IsValid c.kept.entries };
}

impl PatchCache {
    /// No patch is kept.
    pub fn new(alloc: Global) -> Result<PatchCache, NoMemory>
        ensures value { IfOk result (λ cache. cache ≡ []) }
        ensures stands { IfOk result (StandsFor []) }
    {
        let Some(most) = NonZeroUsize::new(MOST) else {
            return Err(NoMemory);
        };
        Ok(PatchCache {
            kept: LruCache::new(alloc, most)?,
        })
    }

    /// The number of the patch that is kept under these blocks, if its copies are those of this one; that is a use.
    /// None exactly where there is no such patch, and then nothing has changed. Takes no memory.
    pub fn find(&mut self, previous: u8, next: u8, patch: &Patch) -> Option<u8>
        ensures value { result ≡ spec.patch_number_kept (patch_key previous next) patch.now.copies self.old }
        ensures kept { self.new ≡ spec.after_find (patch_key previous next) patch.now.copies self.old }
        ensures valid { spec.IsValid self.new }
        ensures hit { (uses : List Use) → StandsFor uses self.old
            → result ≡ hit (patch_key previous next) patch.now.copies uses }
        ensures stands { (uses : List Use) → StandsFor uses self.old → MatchOption result (StandsFor uses self.new)
            (λ number. StandsFor (use_of (patch_key previous next) number patch.now.copies ∷ uses) self.new) }
    {
        let key = Key { previous, next };
        match self.number_of(&key, patch.copies.as_slice()) {
            Some(number) => {
                self.kept.promote(&key);
                Some(number)
            }
            None => None,
        }
    }

    /// Keeps a patch under these blocks, in place of the one that is kept there, and tells its number, which is below
    /// 64: the one that these blocks have, else the least that is free, else that of the patch that was used longest
    /// ago, which is dropped. After want of memory all is as it was.
    pub fn keep(&mut self, previous: u8, next: u8, patch: Patch) -> Result<u8, NoMemory>
        ensures number { IfOk result (λ number. number ≡ spec.number_for (patch_key previous next) self.old) }
        ensures below { IfOk result (λ number. number < 64) }
        ensures kept { IfOk result (λ number.
            self.new ≡ spec.after_use (use_of (patch_key previous next) number patch.copies) self.old) }
        ensures err { OnErr result (self.new ≡ self.old) }
        ensures valid { spec.IsValid self.new }
        ensures stands { (uses : List Use) → StandsFor uses self.old
            → IfOk result (λ number. StandsFor (use_of (patch_key previous next) number patch.copies ∷ uses) self.new) }
    {
        let key = Key { previous, next };
        let number = self.number_for(&key);
        self.kept.put(key, Kept { number, patch })?;
        Ok(number)
    }

    /// The number of the patch under a key, if its copies are these.
    fn number_of(&self, key: &Key, copies: &[PatchCopy]) -> Option<u8>
        ensures { result ≡ spec.patch_number_kept key.now copies.now self.now }
    {
        match self.kept.peek(key) {
            Some(kept) if is_equal(kept.patch.copies.as_slice(), copies) => Some(kept.number),
            _ => None,
        }
    }

    /// The number that a key has or gets.
    fn number_for(&self, key: &Key) -> u8
        ensures value { result ≡ spec.number_for key.now self.now }
        ensures below { result < 64 }
    {
        match self.kept.peek(key) {
            Some(kept) => kept.number,
            None => self.free_number(),
        }
    }

    /// The least number that is free, else that of the patch that was used longest ago.
    fn free_number(&self) -> u8
        ensures value { result ≡ unwrap_or (spec.least_free self.now) (spec.oldest_number self.now) }
        ensures below { result < 64 }
    {
        let count = self.kept.len();
        if count < MOST {
            return count as u8;
        }
        match self.kept.peek_lru() {
            Some((_, kept)) => kept.number,
            None => 0,
        }
    }
}

/// Whether two patches have equal copies.
fn is_equal(some: &[PatchCopy], other: &[PatchCopy]) -> bool
    ensures { result ≡ same_copies some.now other.now }
{
    some == other
}
