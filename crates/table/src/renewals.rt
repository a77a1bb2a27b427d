//! Fresh keys in the place of old ones, and rows that are given up.
ghost use Rattle.std.specs.Prelude.{◌≡◌, ◌+◌, ◌<◌, ◌≤◌, true, not, ◌&&◌, length};
ghost use Rattle.vault.specs.Meaning.{put_after};
ghost use Rattle.rules.specs.FreshKeys.{fresh_key, fresh_keys};
ghost use Rattle.rules.specs.Methods.{deassigned};
ghost use Rattle.rules.specs.Rows.{is_a_unit_row, row};

use crate::calls::Calls;
use crate::state::Table;
use rules::numbering::Numbering;
use rules::row::Kind;
use rules::unit::Holder;
use vault::Vault;

impl<'v, V: Vault, N: Numbering> Table<'v, V, N> {
    /// Puts a key under the next serial into the vault.
    pub(crate) fn put_fresh_key(&mut self)
        ensures lent { ⟦<Table<'v, V, N> as Calls>⟧.lenders self.new ≡ ⟦<Table<'v, V, N> as Calls>⟧.lenders self.old }
        ensures vault { V.meaning self.new.vault.now ≡ put_after (V.meaning self.old.vault.now) self.old.content.layout.next }
        ensures rest { (self.new.content.layout ≡ self.old.content.layout) × (self.new.content.closed ≡ self.old.content.closed) }
    {
        // There is room, and a fresh serial is held by nobody: the vault does not refuse.
        let _ = self.vault.put(self.content.layout.next);
    }

    /// Gives a unit or a range row a fresh key.
    fn give_fresh_key(&mut self, holder: Holder)
        requires { self.old.content.layout.next < 4294967295 }
        ensures lent { ⟦<Table<'v, V, N> as Calls>⟧.lenders self.new ≡ ⟦<Table<'v, V, N> as Calls>⟧.lenders self.old }
        ensures next { self.new.content.layout.next ≡ self.old.content.layout.next + 1 }
        ensures after { ⟦<Table<'v, V, N> as Calls>⟧.model self.new ≡ fresh_key (⟦<Table<'v, V, N> as Calls>⟧.model self.old) holder }
    {
        // The old key is held, and a fresh serial by nobody: the vault does not refuse.
        let _ = self.vault.swap(self.content.layout.key_of(holder), self.content.layout.next);
        self.content.layout.rekey(holder);
    }

    /// Gives each of these a fresh key, in this order.
    #[tactic(auto, unfolding(rules::specs::FreshKeys::fresh_keys))]
    pub(crate) fn give_fresh_keys(&mut self, holders: &[Holder])
        requires { self.old.content.layout.next + length holders.now ≤ 4294967295 }
        ensures lent { ⟦<Table<'v, V, N> as Calls>⟧.lenders self.new ≡ ⟦<Table<'v, V, N> as Calls>⟧.lenders self.old }
        ensures after { ⟦<Table<'v, V, N> as Calls>⟧.model self.new ≡ fresh_keys (⟦<Table<'v, V, N> as Calls>⟧.model self.old) holders.now }
    {
        for holder in holders {
            self.give_fresh_key(*holder);
        }
    }

    /// Gives a row up. A range row's key is eradicated; the unit of a unit row keeps its key, or gets a fresh one.
    pub(crate) fn give_up(&mut self, at: usize, keep: bool)
        requires within { at < 17 }
        requires spare { (is_a_unit_row (row at self.old.content.layout.rows).kind && not keep) ≡ true → self.old.content.layout.next < 4294967295 }
        ensures lent { ⟦<Table<'v, V, N> as Calls>⟧.lenders self.new ≡ ⟦<Table<'v, V, N> as Calls>⟧.lenders self.old }
        ensures after { ⟦<Table<'v, V, N> as Calls>⟧.model self.new ≡ deassigned (⟦<Table<'v, V, N> as Calls>⟧.model self.old) at keep }
    {
        match self.content.layout.rows.get(at).kind {
            Kind::UnitRow { unit } => {
                self.content.layout.turn_into(at, Kind::Free);
                if !keep {
                    self.give_fresh_key(Holder::TheUnit { number: unit });
                }
            }
            Kind::RangeRow { serial, .. } => {
                self.content.layout.turn_into(at, Kind::Free);
                // The key is held: the vault does not refuse.
                let _ = self.vault.drop_key(serial);
            }
            Kind::Free | Kind::Global => {}
        }
    }
}
