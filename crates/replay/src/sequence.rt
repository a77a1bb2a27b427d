//! The worked sequence: one list of calls and questions with what each must answer, and the one fact that the definitions give
//! every answer that is marked so.
// What the definitions say of the steps is computed, so a proof opens the recursive ones.
#![tactic(auto, unfolding(packed::specs::First::first, packed::specs::Rising::change, packed::specs::Rising::has, packed::specs::Rising::insert, packed::specs::Rising::lookup, packed::specs::Rising::remove, rules::specs::FreshKeys::fresh_keys, rules::specs::Rows::all_rows))]

ghost use Rattle.replay.specs.Sequence.{Given, Stage, AllGiven};
ghost use Rattle.replay.specs.Drives.{nvme_start, after_units_made, after_ranges_cut, after_ranges_moved, after_rows_given_up, after_keys_renewed, after_range_locked, scsi_start};

use rules::access::Access;
use rules::ask::{Ask, Question, Reply, Told};
use rules::call::{ADMINS, Accepted, Call};
use rules::cause::Cause;
use rules::row::{Flags, RowFields, Standing};
use rules::unit::Control;

/// How a reply is shown to be right: the program makes the call and compares; and where it is marked so, it follows from the
/// definitions by proof.
#[derive(Clone, Copy)]
pub enum Shown {
    ByProof,
    ByRun,
}

/// One step: what is asked, what must come back, and how that is shown.
// Stages are arrays, which need no heap, and all of eight steps, so that they stand in one array.
#[derive(Clone, Copy)]
pub struct Step {
    pub ask: Ask,
    pub reply: Reply,
    pub shown: Shown,
}

const BLANK: Flags = Flags::BLANK;

const READ_LOCKED: Flags = Flags {
    read_lock_enabled: true,
    write_lock_enabled: false,
    read_locked: true,
    write_locked: false,
    lock_on_reset: false,
};

// The macros below write a step on one line, in the words of a script. A proof sees through them to the step itself.
macro_rules! call {
    (create($unit:expr, $blocks:expr)) => { Call::Create { unit: $unit, blocks: $blocks } };
    (assign($unit:expr, $start:expr, $length:expr)) => { call!(assign($unit, $start, $length, Standing::Shared)) };
    (assign($unit:expr, $start:expr, $length:expr, $standing:expr)) => {
        Call::Assign { caller: ADMINS, unit: $unit, start: $start, length: $length, standing: $standing }
    };
    (deassign($row:expr)) => { Call::Deassign { caller: ADMINS, row: $row, keep: false } };
    (deassign($row:expr, keep)) => { Call::Deassign { caller: ADMINS, row: $row, keep: true } };
    (set_range($row:expr, $start:expr, $length:expr)) => {
        Call::SetRange { caller: ADMINS, row: $row, start: $start, length: $length }
    };
    (set_locks($row:expr, $flags:expr)) => { Call::SetLocks { caller: ADMINS, row: $row, flags: $flags } };
    (gen_key($caller:expr, $row:expr)) => { Call::GenKey { caller: $caller, row: $row } };
    (reactivate($selection:expr, $policy:expr)) => {
        Call::Reactivate { caller: ADMINS, selection: $selection, policy: $policy }
    };
    (delete($unit:expr)) => { Call::Delete { unit: $unit } };
    (format($unit:expr)) => { Call::Format { unit: $unit } };
}

macro_rules! ask {
    (unused()) => { Ask::Question(Question::Unused) };
    (controls($unit:expr, $block:expr)) => { Ask::Question(Question::Controls { unit: $unit, block: $block }) };
    (read($unit:expr, $first:expr, $count:expr)) => {
        Ask::Question(Question::Access { access: Access::Read, unit: $unit, first: $first, count: $count })
    };
    (read_row($row:expr)) => { Ask::Question(Question::ReadRow { caller: ADMINS, row: $row }) };
    ($call:ident $with:tt) => { Ask::Call(call!($call $with)) };
}

macro_rules! reply {
    (success) => { Ok(Told::Answered(Accepted::Success)) };
    (unit_row($row:expr)) => { Ok(Told::Answered(Accepted::Assigned(($row, true)))) };
    (range_row($row:expr)) => { Ok(Told::Answered(Accepted::Assigned(($row, false)))) };
    (single_user_rows($count:expr)) => { Ok(Told::Answered(Accepted::SingleUserRows($count))) };
    (refused($cause:expr)) => { Err($cause) };
    (unused($count:expr)) => { Ok(Told::Unused($count)) };
    (control($row:expr, $key:expr)) => { Ok(Told::Controls(Control { row: $row, serial: $key })) };
    (granted) => { Ok(Told::Granted) };
    (denied($block:expr, $row:expr)) => { Err(Cause::BlockLocked { block: $block, row: $row }) };
    // of a shared row with start 0, length 0 and blank flags
    (fields($unit:expr, $serial:expr, $is_unit_row:expr)) => {
        Ok(Told::Row(RowFields {
            unit: $unit,
            serial: $serial,
            start: 0,
            length: 0,
            flags: BLANK,
            is_unit_row: $is_unit_row,
            standing: Standing::Shared,
        }))
    };
}

macro_rules! proved {
    ($ask:ident $with:tt => $($reply:tt)+) => {
        Step { ask: ask!($ask $with), reply: reply!($($reply)+), shown: Shown::ByProof }
    };
}

macro_rules! run {
    ($ask:ident $with:tt => $($reply:tt)+) => {
        Step { ask: ask!($ask $with), reply: reply!($($reply)+), shown: Shown::ByRun }
    };
}

/// Four units under row 0.
fn units_made() -> [Step; 8]
    ensures { Stage nvme_start result after_units_made }
{
    [
        run!(create(1, 100) => success), // 1
        run!(create(2, 100) => success), // 2
        run!(create(3, 100) => success), // 3
        run!(create(4, 100) => success), // 4
        run!(controls(1, 0) => control(0, 1)),
        run!(controls(2, 0) => control(0, 2)),
        run!(controls(3, 0) => control(0, 3)),
        run!(controls(4, 0) => control(0, 4)),
    ]
}

/// Units 1 and 3 get unit rows, and unit 1 two range rows; a third would share blocks with the first.
fn ranges_cut() -> [Step; 8]
    ensures { Stage after_units_made result after_ranges_cut }
{
    [
        run!(unused() => unused(11)),
        proved!(assign(1, 0, 0) => unit_row(1)), // 5
        proved!(assign(3, 0, 0) => unit_row(2)), // 6
        proved!(assign(1, 10, 10) => range_row(3)), // 7
        proved!(controls(1, 10) => control(3, 5)),
        proved!(assign(1, 30, 10) => range_row(4)), // 8
        proved!(controls(1, 30) => control(4, 6)),
        proved!(assign(1, 15, 10) => refused(Cause::SharesBlock)), // 9
    ]
}

/// Range rows of unit 3: one is moved, and one of length 0 has a key too. A range row of unit 1 is given up.
fn ranges_moved() -> [Step; 8]
    ensures { Stage after_ranges_cut result after_ranges_moved }
{
    [
        proved!(assign(3, 15, 10) => range_row(5)), // 10
        proved!(controls(3, 15) => control(5, 7)),
        proved!(set_range(5, 20, 10) => success), // 11
        proved!(controls(3, 20) => control(5, 7)),
        proved!(controls(3, 15) => control(2, 3)),
        proved!(assign(3, 0, 0) => range_row(6)), // 12
        proved!(read_row(6) => fields(3, 8, false)),
        proved!(deassign(4) => success), // 13
    ]
}

/// Rows are given up: a range row's key cannot be kept; unit 1 keeps its key, and unit 2 gets a fresh one.
fn rows_given_up() -> [Step; 8]
    ensures { Stage after_ranges_moved result after_rows_given_up }
{
    [
        proved!(controls(1, 30) => control(1, 1)),
        proved!(deassign(3, keep) => refused(Cause::KeepOnRange)), // 14
        proved!(deassign(3) => success), // 15
        proved!(deassign(1, keep) => success), // 16
        proved!(controls(1, 0) => control(0, 1)),
        proved!(assign(2, 0, 0) => unit_row(1)), // 17
        proved!(deassign(1) => success), // 18
        proved!(controls(2, 0) => control(0, 9)),
    ]
}

/// Format renews unit 3 and its range rows, and GenKey of row 0 every unit under it.
fn keys_renewed() -> [Step; 8]
    ensures { Stage after_rows_given_up result after_keys_renewed }
{
    [
        proved!(delete(3) => refused(Cause::HasUnitRow)), // 19
        proved!(format(3) => success), // 20
        proved!(controls(3, 0) => control(2, 10)),
        proved!(controls(3, 20) => control(5, 11)),
        proved!(read_row(6) => fields(3, 12, false)),
        proved!(gen_key(ADMINS, 0) => success), // 21
        proved!(controls(1, 0) => control(0, 13)),
        proved!(controls(2, 0) => control(0, 14)),
    ]
}

/// A range that ends past its unit is refused. A locked range denies an access at its first block.
fn range_locked() -> [Step; 8]
    ensures { Stage after_keys_renewed result after_range_locked }
{
    [
        proved!(controls(4, 0) => control(0, 15)),
        proved!(unused() => unused(9)),
        proved!(assign(3, 91, 10) => refused(Cause::PastUnit)), // 22
        proved!(assign(3, 90, 10) => range_row(1)), // 23
        proved!(controls(3, 90) => control(1, 16)),
        proved!(set_locks(5, READ_LOCKED) => success), // 24
        proved!(read(3, 15, 5) => granted), // 25
        proved!(read(3, 15, 10) => denied(20, 5)), // 26
    ]
}

/// Rows go to single users. User 3 renews the key of unit row 2, and range row 5 of that unit keeps its key.
fn single_users() -> [Step; 8]
    ensures { Given after_range_locked result }
{
    [
        proved!(reactivate(0x0000_000C, 1) => refused(Cause::LockEnabled)), // 27
        proved!(set_locks(5, BLANK) => success), // 28
        proved!(reactivate(0x0000_000C, 1) => single_user_rows(2)), // 29
        proved!(assign(1, 0, 0, Standing::SingleUser) => unit_row(3)), // 30
        proved!(controls(1, 0) => control(3, 13)),
        proved!(gen_key(3, 2) => success),
        proved!(controls(3, 0) => control(2, 17)),
        proved!(controls(3, 20) => control(5, 11)),
    ]
}

/// The worked sequence under NVMe, from a blank drive over an empty vault of capacity 15: seven stages of eight steps. The
/// definitions give every reply that is shown by proof.
pub fn sequence() -> [[Step; 8]; 7]
    ensures { AllGiven nvme_start result }
{
    [
        units_made(),
        ranges_cut(),
        ranges_moved(),
        rows_given_up(),
        keys_renewed(),
        range_locked(),
        single_users(),
    ]
}

/// Under SCSI unit 0 is a unit like any other, and a free row has the mark.
fn unit_zero() -> [Step; 8]
    ensures { Given scsi_start result }
{
    [
        run!(create(0, 10) => success),
        proved!(create(0xFFFF_FFFF, 10) => refused(Cause::NoSuchUnit)),
        proved!(assign(0, 0, 0) => unit_row(1)),
        proved!(read_row(1) => fields(0, 0, true)),
        proved!(read_row(2) => fields(0xFFFF_FFFF, 0, false)),
        proved!(assign(0, 0, 0) => range_row(2)),
        proved!(read_row(2) => fields(0, 2, false)),
        proved!(controls(0, 0) => control(1, 1)),
    ]
}

/// The same under SCSI, in one stage.
pub fn scsi_sequence() -> [[Step; 8]; 1]
    ensures { AllGiven scsi_start result }
{
    [unit_zero()]
}
