//! Key vaults: where a drive keeps its media keys, each known by its serial.
#![tactic(auto)]

ghost use Rattle.vault.specs.Meaning.{Meaning, sound, put_answer, put_after, swap_answer, swap_after, drop_answer, drop_after};
ghost use Rattle.vault.specs.Serials.{holds};
ghost use Rattle.std.specs.Prelude.{◌≡◌, ℕ, true, false, List, length, is_ok};

pub mod chip;
pub mod file;
pub mod refusal;
pub mod serials;

use refusal::VaultRefusal;

/// A fixed number of places for keys, and the set of those that are held.
pub trait KeySet {
    ghost meaning: { Self → Meaning };

    // The ghost names of what was lent to the vault, so that the lenders know it again afterwards.
    ghost lenders: { Self → List ℕ };

    // Owed by each kind of vault, for all its values.
    ghost lawful: { (v : Self) → sound (meaning v) ≡ true };

    /// How many keys there is room for.
    fn capacity(&self) -> u32
        ensures { result ≡ (meaning self.now).capacity };

    /// How many keys are held.
    fn count(&self) -> u32
        ensures { result ≡ length (meaning self.now).held };

    /// Whether the key with this serial is held.
    fn holds(&self, serial: u32) -> bool
        ensures { result ≡ holds serial (meaning self.now).held };
}

/// A key set that takes keys in and lets them go. What it answers and does follows from its meaning alone,
/// so code over vaults is proved once, from these contracts.
// The clauses of each request name the definitions of that request, so they stand with it and not in one clause for all.
pub trait Vault: KeySet {
    /// Takes a key in. Refuses serial 0, a serial that is held, and a full vault.
    fn put(&mut self, serial: u32) -> Result<(), VaultRefusal>
        ensures lent { Self.lenders self.new ≡ Self.lenders self.old }
        ensures kept { is_ok result ≡ false → self.new ≡ self.old }
        ensures answer { result ≡ put_answer (Self.meaning self.old) serial }
        ensures after { Self.meaning self.new ≡ put_after (Self.meaning self.old) serial };

    /// Puts a new key in the place of an old one. Refuses an old serial that is not held, then as `put` does for the new.
    fn swap(&mut self, old: u32, new: u32) -> Result<(), VaultRefusal>
        ensures lent { Self.lenders self.new ≡ Self.lenders self.old }
        ensures kept { is_ok result ≡ false → self.new ≡ self.old }
        ensures answer { result ≡ swap_answer (Self.meaning self.old) old new }
        ensures after { Self.meaning self.new ≡ swap_after (Self.meaning self.old) old new };

    /// Eradicates a key. Refuses a serial that is not held.
    fn drop_key(&mut self, serial: u32) -> Result<(), VaultRefusal>
        ensures lent { Self.lenders self.new ≡ Self.lenders self.old }
        ensures kept { is_ok result ≡ false → self.new ≡ self.old }
        ensures answer { result ≡ drop_answer (Self.meaning self.old) serial }
        ensures after { Self.meaning self.new ≡ drop_after (Self.meaning self.old) serial };
}
