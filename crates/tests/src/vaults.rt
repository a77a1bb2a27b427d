//! Both kinds of vault, asked the same things.
use std::process::Abort;
use vault::chip::KeyChip;
use vault::file::KeyFile;
use vault::refusal::VaultRefusal;
use vault::{KeySet, Vault};

const LARGEST: u32 = 4_294_967_294;

#[derive(Clone, Copy)]
enum Request {
    Put(u32),
    Swap(u32, u32),
    Drop(u32),
}

// A refusal by its number.
fn numbered(outcome: Result<(), VaultRefusal>) -> Result<(), u32> {
    match outcome {
        Ok(()) => Ok(()),
        Err(refusal) => Err(refusal.number()),
    }
}

fn ask<V: Vault>(vault: &mut V, request: Request) -> Result<(), u32> {
    numbered(match request {
        Request::Put(serial) => vault.put(serial),
        Request::Swap(old, new) => vault.swap(old, new),
        Request::Drop(serial) => vault.drop_key(serial),
    })
}

// Makes the requests in turn, each of which has to be answered so.
fn answers<V: Vault>(rt: &impl Abort, vault: &mut V, requests: &[(Request, Result<(), u32>)]) {
    for (request, expected) in requests {
        assert!(rt; ask(vault, *request) == *expected);
    }
}

// Capacity 2, empty at first. Where several refusals apply, the first in order is answered.
const ORDER: [(Request, Result<(), u32>); 18] = [
    (Request::Swap(5, 0), Err(44)),
    (Request::Drop(0), Err(44)),
    (Request::Put(0), Err(41)),
    (Request::Put(5), Ok(())),
    (Request::Put(5), Err(42)),
    (Request::Put(LARGEST), Ok(())),
    (Request::Put(0), Err(41)),
    (Request::Put(5), Err(42)),
    (Request::Put(7), Err(43)),
    (Request::Swap(7, 5), Err(44)),
    (Request::Swap(5, 0), Err(41)),
    (Request::Swap(5, 5), Err(42)),
    (Request::Swap(5, LARGEST), Err(42)),
    (Request::Swap(5, 9), Ok(())),
    (Request::Drop(5), Err(44)),
    (Request::Drop(LARGEST), Ok(())),
    (Request::Drop(LARGEST), Err(44)),
    (Request::Put(5), Ok(())),
];

fn answers_in_order<V: Vault>(rt: &impl Abort, vault: &mut V) {
    answers(rt, vault, &ORDER);
    assert!(rt; vault.capacity() == 2 && vault.count() == 2);
    for serial in [0, 5, 7, 9, LARGEST] {
        assert!(rt; vault.holds(serial) == [5, 9].contains(&serial));
    }
}

#[test]
fn refusals_come_in_order(rt: HostRuntime) {
    answers_in_order(&rt, &mut KeyFile::new(2));
    let mut registers = [0, 0];
    answers_in_order(&rt, &mut KeyChip::new(&mut registers));
    assert!(rt; registers == [9, 5]);
}

#[test]
fn put_fills_the_lowest_zero_register(rt: HostRuntime) {
    let mut registers = [3, 0, 0, 8];
    let requests = [
        (Request::Put(7), Ok(())),
        (Request::Drop(3), Ok(())),
        (Request::Put(4), Ok(())),
        (Request::Swap(8, 6), Ok(())),
    ];
    answers(&rt, &mut KeyChip::new(&mut registers), &requests);
    assert!(rt; registers == [4, 7, 0, 6]);
}

// A vault with no place: it holds nothing, and refuses as any full vault does.
fn unfit<V: Vault>(rt: &impl Abort, vault: &mut V) {
    assert!(rt; vault.capacity() == 0 && vault.count() == 0 && !vault.holds(3));
    let requests = [
        (Request::Put(0), Err(41)),
        (Request::Put(3), Err(43)),
        (Request::Swap(3, 4), Err(44)),
        (Request::Drop(3), Err(44)),
    ];
    answers(rt, vault, &requests);
}

#[test]
fn unfit_capacities(rt: HostRuntime) {
    for (capacity, expected) in [
        (0, Err(29)),
        (1, Ok(())),
        (64, Ok(())),
        (65, Err(29)),
        (u32::MAX, Err(29)),
    ] {
        assert!(rt; numbered(KeyFile::check(capacity)) == expected);
    }
    assert!(rt; KeyFile::new(64).capacity() == 64);
    unfit(&rt, &mut KeyFile::new(0));
    unfit(&rt, &mut KeyFile::new(65));
}

fn check(registers: &[u32]) -> Result<(), u32> {
    numbered(KeyChip::check(registers))
}

#[test]
fn a_register_that_stands_twice_is_unfit(rt: HostRuntime) {
    let mut twice = [3, 0, 3];
    assert!(rt; check(&twice) == Err(29));
    unfit(&rt, &mut KeyChip::new(&mut twice));
    assert!(rt; twice == [3, 0, 3]);
}

#[test]
fn too_many_registers_are_unfit(rt: HostRuntime) {
    let mut many = [0; 65];
    assert!(rt; check(&[]) == Err(29) && check(&[0; 64]) == Ok(()) && check(&many) == Err(29));
    unfit(&rt, &mut KeyChip::new(&mut many));
    assert!(rt; many == [0; 65]);
}
