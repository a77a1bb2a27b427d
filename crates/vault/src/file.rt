ghost use Rattle.vault.specs.Kinds.{file_check, file_new};
ghost use Rattle.vault.specs.Meaning.{sound};
ghost use Rattle.std.specs.Prelude.{◌≡◌, ◌≤◌, true, []};

use crate::refusal::{VaultRefusal, check_drop, check_put, check_swap};
use crate::{KeySet, Vault};
use packed::SortedList;

/// A vault in memory of its own: a sorted list of serials.
#[derive(Drop)]
pub struct KeyFile {
    serials: SortedList<u32, 64>,
    capacity: u32,
    ghost small: { capacity ≤ 64 },
    ghost ordered: { sound (record { capacity = capacity; held = serials }) ≡ true },
}

impl KeyFile {
    ghost use Rattle.vault.specs.Views.{file_view};

    /// Says whether a key file can have this capacity.
    pub fn check(capacity: u32) -> Result<(), VaultRefusal>
        ensures { result ≡ file_check capacity }
    {
        // A file is told its capacity and a chip counts its registers, so each check compares its own number with 1 and 64.
        if capacity >= 1 && capacity <= 64 {
            Ok(())
        } else {
            Err(VaultRefusal::Unfit)
        }
    }

    /// An empty key file. Its capacity is 0 where `check` refuses: there is a key file for any number.
    pub fn new(capacity: u32) -> KeyFile
        ensures { file_view result ≡ file_new capacity }
    {
        let capacity = if capacity <= 64 { capacity } else { 0 };
        KeyFile {
            serials: SortedList::new(),
            capacity,
        }
    }
}

impl KeySet for KeyFile {
    ghost meaning = { λ f. record { capacity = f.capacity; held = f.serials } };

    // A key file owns its memory.
    ghost lenders = { λ _. [] };

    ghost lawful = { λ f. f.ordered };

    fn capacity(&self) -> u32 {
        self.capacity
    }

    // At most 64: a conversion that could fail would have a case that never comes.
    fn count(&self) -> u32 {
        self.serials.len() as u32
    }

    fn holds(&self, serial: u32) -> bool {
        self.serials.contains(serial)
    }
}

impl Vault for KeyFile {
    fn put(&mut self, serial: u32) -> Result<(), VaultRefusal> {
        check_put(self, serial)?;
        self.serials.insert(serial);
        Ok(())
    }

    fn swap(&mut self, old: u32, new: u32) -> Result<(), VaultRefusal> {
        check_swap(self, old, new)?;
        self.serials.remove(old);
        self.serials.insert(new);
        Ok(())
    }

    fn drop_key(&mut self, serial: u32) -> Result<(), VaultRefusal> {
        check_drop(self, serial)?;
        self.serials.remove(serial);
        Ok(())
    }
}
