//! What no script can say of a number: that the largest are read as themselves, and that the empty text is none.
use crate::{Number, NumberFault};

#[test]
fn the_largest_numbers_are_read(rt: HostRuntime) {
    for word in ["18446744073709551615", "0xffFFffFFffFFffFF"] {
        assert!(rt; u64::parse(word) == Ok(u64::MAX));
    }
    for word in ["4294967295", "0xffffffff"] {
        assert!(rt; u32::parse(word) == Ok(u32::MAX));
    }
    assert!(rt; u32::parse("4294967296") == Err(NumberFault::TooLarge));
    assert!(rt; u64::parse("") == Err(NumberFault::NotANumber));
}
