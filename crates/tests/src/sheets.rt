//! What a script cannot say of sheets: what stays of a buffer, and sessions. All else is in `transcripts/sheets`; the format's worked
//! example is in `tools/round_trip`.
use rules::cause::Cause;
use rules::numbering::Nvme;
use table::calls::Calls;
use table::session::{ReadingSession, WritingSession};
use table::state::Table;
use vault::file::KeyFile;

// The table of the worked example: a blank NVMe one after Create of unit 1 with 100 blocks.
#[test]
fn a_buffer_keeps_what_is_behind_the_sheet(rt: HostRuntime) {
    let mut file = KeyFile::new(15);
    let mut table = Table::<_, Nvme>::fresh(&mut file);
    assert!(rt; table.create(1, 100).is_ok());
    let mut out = [0xA5; 600];
    assert!(rt; table.save(&mut out) == Ok(592));
    assert!(rt; out[592..] == [0xA5; 8]);
}

// A blank NVMe table over a vault of capacity 15.
const DESCRIPTOR_IN_24_BYTES: [u8; 24] = [
    0x04, 0x03, 0x22, 0x10, 0xA0, 0x00, 0x00, 0x00, 0x00, 0x00, 0x00, 0x0F, 0x00, 0x00, 0x00, 0x0F,
    0x00, 0x00, 0x00, 0x0F, 0xA5, 0xA5, 0xA5, 0xA5,
];

#[test]
fn a_buffer_keeps_what_is_behind_the_descriptor(rt: HostRuntime) {
    let mut file = KeyFile::new(15);
    let table = Table::<_, Nvme>::fresh(&mut file);
    let mut out = [0xA5; 24];
    assert!(rt; table.describe(&mut out).is_ok());
    assert!(rt; out == DESCRIPTOR_IN_24_BYTES);
}

#[test]
fn a_buffer_too_short_to_save_is_left_alone(rt: HostRuntime) {
    let mut file = KeyFile::new(15);
    let mut table = Table::<_, Nvme>::fresh(&mut file);
    assert!(rt; table.create(1, 100).is_ok());
    let too_short = Err(Cause::BufferShort { needed: 592 });
    let mut out = [0xA5; 591];
    assert!(rt; table.save(&mut out) == too_short && table.save(&mut []) == too_short);
    assert!(rt; out == [0xA5; 591]);
}

#[test]
fn a_buffer_too_short_to_describe_is_left_alone(rt: HostRuntime) {
    let mut file = KeyFile::new(15);
    let table = Table::<_, Nvme>::fresh(&mut file);
    let too_short = Err(Cause::BufferShort { needed: 20 });
    let mut out = [0xA5; 19];
    assert!(rt; table.describe(&mut out) == too_short && table.describe(&mut []) == too_short);
    assert!(rt; out == [0xA5; 19]);
}

// The number of a refusal.
fn refusal<T: Drop>(outcome: Result<T, Cause>) -> Option<u32> {
    match outcome {
        Ok(_) => None,
        Err(cause) => Some(cause.number()),
    }
}

fn answers_29(table: &Table<'_, KeyFile, Nvme>, out: &mut [u8]) -> bool {
    refusal(table.save(out)) == Some(29) && refusal(table.describe(out)) == Some(29)
}

// A short buffer is no matter on a closed table.
#[test]
fn a_closed_table_leaves_a_buffer_alone(rt: HostRuntime) {
    let mut file = KeyFile::new(0);
    let table = Table::<_, Nvme>::fresh(&mut file);
    let mut short = [0xA5; 19];
    assert!(rt; answers_29(&table, &mut short) && short == [0xA5; 19]);
    let mut long = [0xA5; 640];
    assert!(rt; answers_29(&table, &mut long) && long == [0xA5; 640]);
}

#[test]
fn a_closed_table_answers_29_to_a_reader(rt: HostRuntime) {
    let mut file = KeyFile::new(0);
    let table = Table::<_, Nvme>::fresh(&mut file);
    let session = WritingSession::open(17)
        .ok()
        .expect(&rt, "caller 17 is one");
    let answer = table.read_row(&session.narrow(), 17);
    assert!(rt; refusal(answer) == Some(29));
}

#[test]
fn sessions_are_of_callers_0_to_17(rt: HostRuntime) {
    for (caller, expected) in [(0, None), (17, None), (18, Some(20)), (u32::MAX, Some(20))] {
        assert!(rt; refusal(WritingSession::open(caller)) == expected);
        assert!(rt; refusal(ReadingSession::open(caller)) == expected);
    }
}
