//! What no script can say of a table: its vault before and after it, and a session that is given back.
// Its calls stand with their answers in transcripts/, and what is looked at on a closed table stands in a closing report there.
use rules::cause::Cause;
use rules::numbering::Nvme;
use rules::row::Standing;
use table::calls::Calls;
use table::session::WritingSession;
use table::state::{Table, fresh_check};
use vault::Vault;
use vault::chip::KeyChip;
use vault::file::KeyFile;

// Under `fresh` a script's vault is empty.
#[test]
fn a_used_vault_closes_a_blank_table(rt: HostRuntime) {
    let mut used = KeyFile::new(4);
    assert!(rt; fresh_check(&used).is_ok());
    assert!(rt; used.put(9).is_ok());
    assert!(rt; fresh_check(&used) == Err(Cause::Closed));
    let mut table = Table::<_, Nvme>::fresh(&mut used);
    assert!(rt; table.create(1, 1) == Err(Cause::Closed));
    assert!(rt; table.create(0, 0) == Err(Cause::Closed));
    assert!(rt; table.delete(1) == Err(Cause::Closed));
    assert!(rt; table.unused() == Err(Cause::Closed));
    assert!(rt; table.controls(1, 0) == Err(Cause::Closed));
    // its vault keeps what it holds
    assert!(rt; table.holds(9));
}

// A key file of 65 has capacity 0 as well.
#[test]
fn a_vault_without_room_closes_a_blank_table(rt: HostRuntime) {
    for capacity in [0, 65] {
        assert!(rt; fresh_check(&KeyFile::new(capacity)) == Err(Cause::Closed));
    }
}

// The register of a key that went is filled again.
#[test]
fn keys_stand_in_the_registers_of_the_chip(rt: HostRuntime) {
    let mut registers = [0, 0];
    let mut chip = KeyChip::new(&mut registers);
    let mut table = Table::<_, Nvme>::fresh(&mut chip);
    for outcome in [
        table.create(7, 10),
        table.create(3, 10),
        table.delete(7),
        table.create(7, 10),
    ] {
        assert!(rt; outcome.is_ok());
    }
    assert!(rt; registers == [3, 2]);
}

#[test]
fn a_refused_reactivate_gives_its_session_back(rt: HostRuntime) {
    let mut file = KeyFile::new(2);
    let mut table = Table::<_, Nvme>::fresh(&mut file);
    let session = WritingSession::open(0).ok().expect(&rt, "caller 0 is one");
    let refused = table
        .reactivate(session, 0x2_0000, 0)
        .err()
        .expect(&rt, "no row has bit 17");
    assert!(rt; refused.cause == Cause::OutOfBounds);
    // it is still a session of Admins, as what comes after the check of the caller is answered
    let answer = table.assign(&refused.session, 9, 0, 0, Standing::Shared);
    assert!(rt; answer == Err(Cause::NoSuchUnit));
}
