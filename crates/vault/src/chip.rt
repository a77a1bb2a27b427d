ghost use Rattle.vault.specs.Kinds.{chip_check, chip_meaning, chip_new, in_use, overwritten, chip_put, chip_swap, chip_drop};
ghost use Rattle.vault.specs.Meaning.{sound, put_answer, put_after, swap_answer, swap_after, drop_answer, drop_after};
ghost use Rattle.vault.specs.Serials.{holds};
ghost use Rattle.std.specs.Prelude.{◌≡◌, ◌≤◌, true, false, [], ◌∷◌, length, take, is_ok};

use crate::refusal::{VaultRefusal, check_drop, check_put, check_swap};
use crate::serials::all_distinct;
use crate::{KeySet, Vault};
use packed::{contains, place_of};

/// A vault in the registers of a device, which has each as a word: 0, or a held serial.
#[derive(Drop)]
pub struct KeyChip<'a> {
    registers: &'a mut [u32],
    // All, or none where they are unfit: `new` gives a vault for any registers. A shorter slice would not do: whoever lent them is to know unfit words again.
    used: usize,
    ghost sized: { (used ≤ length registers.now) × (used ≤ 64) },
    ghost ordered: { sound (chip_meaning used registers.now) ≡ true },
}

impl<'a> KeyChip<'a> {
    ghost use Rattle.vault.specs.Views.{chip_view};

    /// Says whether these registers can serve as a vault.
    pub fn check(registers: &[u32]) -> Result<(), VaultRefusal>
        ensures { result ≡ chip_check registers.now }
    {
        // A chip counts its registers and a file is told its capacity, so each check compares its own number with 1 and 64.
        let n = registers.len();
        if n >= 1 && n <= 64 && all_distinct(registers) {
            Ok(())
        } else {
            Err(VaultRefusal::Unfit)
        }
    }

    /// The vault in these registers, or one with no place where `check` refuses them.
    pub fn new(registers: &'a mut [u32]) -> KeyChip<'a>
        ensures value { chip_view result ≡ chip_new registers.old }
        ensures used { result.used ≡ in_use registers.old }
        ensures words { result.registers.now ≡ registers.old }
        ensures lent { result.registers.ghost_name ≡ registers.entry.ghost_name }
    {
        let used = match KeyChip::check(registers) {
            Ok(()) => registers.len(),
            Err(_) => 0,
        };
        KeyChip { registers, used }
    }

    /// The registers in use.
    fn words(&self) -> &[u32]
        ensures { result.now ≡ take self.now.used self.now.registers.now }
    {
        &self.registers[0..self.used]
    }

    /// Writes over the lowest register in use that has the word `old`.
    fn overwrite(&mut self, old: u32, new: u32)
        requires there { holds old (take self.old.used self.old.registers.now) ≡ true }
        requires stays { sound (chip_meaning self.old.used (overwritten self.old.used self.old.registers.now old new)) ≡ true }
        ensures used { self.new.used ≡ self.old.used }
        ensures words { self.new.registers.now ≡ overwritten self.old.used self.old.registers.now old new }
        ensures lent { self.new.registers.ghost_name ≡ self.old.registers.ghost_name }
    {
        if let Some(at) = place_of(self.words(), old) {
            self.registers[at] = new;
        }
    }
}

impl<'a> KeySet for KeyChip<'a> {
    ghost meaning = { λ v. chip_meaning v.used v.registers.now };

    ghost lenders = { λ v. v.registers.ghost_name ∷ [] };

    ghost lawful = { λ v. v.ordered };

    // There are at most 64 registers: a conversion that could fail would have a case that never comes.
    fn capacity(&self) -> u32 {
        self.used as u32
    }

    // A sum of ones goes over several words at a time, which a filter would not.
    fn count(&self) -> u32 {
        self.words().iter().map(|word| u32::from(*word != 0)).sum()
    }

    fn holds(&self, serial: u32) -> bool {
        serial != 0 && contains(self.words(), serial)
    }
}

// Each of these says more than the trait does: which register is written.
impl<'a> Vault for KeyChip<'a> {
    ghost use Rattle.vault.specs.Views.{chip_view};

    fn put(&mut self, serial: u32) -> Result<(), VaultRefusal>
        ensures lent { self.new.registers.ghost_name ∷ [] ≡ self.old.registers.ghost_name ∷ [] }
        ensures kept { is_ok result ≡ false → self.new ≡ self.old }
        ensures answer { result ≡ put_answer (chip_view self.old) serial }
        ensures after { chip_view self.new ≡ put_after (chip_view self.old) serial }
        ensures words { self.new.registers.now ≡ chip_put self.old.used self.old.registers.now serial }
    {
        check_put(self, serial)?;
        self.overwrite(0, serial);
        Ok(())
    }

    fn swap(&mut self, old: u32, new: u32) -> Result<(), VaultRefusal>
        ensures lent { self.new.registers.ghost_name ∷ [] ≡ self.old.registers.ghost_name ∷ [] }
        ensures kept { is_ok result ≡ false → self.new ≡ self.old }
        ensures answer { result ≡ swap_answer (chip_view self.old) old new }
        ensures after { chip_view self.new ≡ swap_after (chip_view self.old) old new }
        ensures words { self.new.registers.now ≡ chip_swap self.old.used self.old.registers.now old new }
    {
        check_swap(self, old, new)?;
        self.overwrite(old, new);
        Ok(())
    }

    fn drop_key(&mut self, serial: u32) -> Result<(), VaultRefusal>
        ensures lent { self.new.registers.ghost_name ∷ [] ≡ self.old.registers.ghost_name ∷ [] }
        ensures kept { is_ok result ≡ false → self.new ≡ self.old }
        ensures answer { result ≡ drop_answer (chip_view self.old) serial }
        ensures after { chip_view self.new ≡ drop_after (chip_view self.old) serial }
        ensures words { self.new.registers.now ≡ chip_drop self.old.used self.old.registers.now serial }
    {
        check_drop(self, serial)?;
        self.overwrite(serial, 0);
        Ok(())
    }
}

/// Puts a key into registers that are lent for this one request. Whoever lent them knows every word afterwards.
pub fn put_into(registers: &mut [u32], serial: u32) -> Result<(), VaultRefusal>
    ensures answer { result ≡ put_answer (chip_new registers.old) serial }
    ensures words { registers.new ≡ chip_put (in_use registers.old) registers.old serial }
{
    let mut chip = KeyChip::new(registers);
    chip.put(serial)
}
