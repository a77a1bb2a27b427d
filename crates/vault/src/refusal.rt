ghost use Rattle.vault.specs.Meaning.{number, put_answer, swap_answer, drop_answer};
ghost use Rattle.std.specs.Prelude.{◌≡◌};

use crate::KeySet;

/// Why a vault, or the check before it is made, refuses.
#[derive(Clone, Copy)]
pub enum VaultRefusal {
    /// The capacity is outside 1 to 64, or the registers repeat a serial.
    Unfit,
    /// 0 is no serial.
    SerialZero,
    AlreadyHeld,
    Full,
    NotHeld,
}

impl VaultRefusal {
    /// The number by which the refusal is reported: a host is told it, and code tells refusals apart by their names.
    pub fn number(self) -> u32
        ensures { result ≡ number self }
    {
        match self {
            VaultRefusal::Unfit => 29,
            VaultRefusal::SerialZero => 41,
            VaultRefusal::AlreadyHeld => 42,
            VaultRefusal::Full => 43,
            VaultRefusal::NotHeld => 44,
        }
    }
}

// The checks of each request in their order, the same for every kind of vault.
pub(crate) fn check_put<S: KeySet>(keys: &S, serial: u32) -> Result<(), VaultRefusal>
    ensures { result ≡ put_answer (S.meaning keys.now) serial }
{
    if serial == 0 {
        return Err(VaultRefusal::SerialZero);
    }
    if keys.holds(serial) {
        return Err(VaultRefusal::AlreadyHeld);
    }
    if keys.count() >= keys.capacity() {
        return Err(VaultRefusal::Full);
    }
    Ok(())
}

pub(crate) fn check_swap<S: KeySet>(keys: &S, old: u32, new: u32) -> Result<(), VaultRefusal>
    ensures { result ≡ swap_answer (S.meaning keys.now) old new }
{
    if !keys.holds(old) {
        return Err(VaultRefusal::NotHeld);
    }
    if new == 0 {
        return Err(VaultRefusal::SerialZero);
    }
    if keys.holds(new) {
        return Err(VaultRefusal::AlreadyHeld);
    }
    Ok(())
}

pub(crate) fn check_drop<S: KeySet>(keys: &S, serial: u32) -> Result<(), VaultRefusal>
    ensures { result ≡ drop_answer (S.meaning keys.now) serial }
{
    if !keys.holds(serial) {
        return Err(VaultRefusal::NotHeld);
    }
    Ok(())
}
