//! What some of the definitions come to, in other words; as with the laws, each stands on a contract.
ghost use Rattle.rules.specs.Meanings.{SharingIsACommonBlock, DeniedAtFirstLockedBlock, GrantedWhereNoneLocked, ReactivateCountsRows, FreshKeysInOrder, FreshKeysRise};

/// Two ranges share a block just where some block is one of both.
pub fn sharing_is_a_common_block()
    ensures { SharingIsACommonBlock }
{}

/// An access is denied at the first locked block that it asks for, with that block's row.
pub fn denied_at_first_locked_block()
    ensures { DeniedAtFirstLockedBlock }
{}

/// Where an access is granted, none of its blocks is locked.
pub fn granted_where_none_locked()
    ensures { GrantedWhereNoneLocked }
{}

/// What Reactivate answers is how many rows are in Single User Mode afterwards.
pub fn reactivate_counts_rows()
    ensures { ReactivateCountsRows }
{}

/// Fresh keys are given in order, each serial to another unit or range row, and no other key changes.
pub fn fresh_keys_in_order()
    ensures { FreshKeysInOrder }
{}

/// The order is a rising one: by GenKey of row 0 that of the units' numbers, by Format the unit and then its range rows.
pub fn fresh_keys_rise()
    ensures { FreshKeysRise }
{}
