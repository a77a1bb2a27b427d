//! What every run of the calls keeps, from a blank drive and from any drive that a sheet can describe.
//! A law stands on a contract, so that the check asks for its proof; the functions do nothing.
ghost use Rattle.rules.specs.Laws.{StaysSound, AlwaysRangesInOrder, AlwaysOneKeyEach, NoRequestRefused, NoKeyReturns, OpenedByOwnerOrFreshKey, RefusedChangesNothing};

/// At every point a sheet can describe the drive: it is in order, and the vault holds its keys.
pub fn stays_sound()
    ensures { StaysSound }
{}

/// At every point range rows of one unit share no block, end inside the unit and stand under exactly one unit row.
pub fn ranges_in_order()
    ensures { AlwaysRangesInOrder }
{}

/// At every point the vault holds one key for each unit and each range row, all different, and nothing else.
pub fn one_key_each()
    ensures { AlwaysOneKeyEach }
{}

/// The vault refuses no request that is listed for an accepted call, and these leave just what it then means.
pub fn no_request_refused()
    ensures { NoRequestRefused }
{}

/// A key that has left the vault never stands there again.
pub fn no_key_returns()
    ensures { NoKeyReturns }
{}

/// A block that was locked and is open was given a fresh key since, or its row's owner set the row's locks.
pub fn opened_by_owner_or_fresh_key()
    ensures { OpenedByOwnerOrFreshKey }
{}

/// A refused call leaves everything as it was.
pub fn refused_changes_nothing()
    ensures { RefusedChangesNothing }
{}
