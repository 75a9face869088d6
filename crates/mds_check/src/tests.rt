use crate::form::{check_text, is_check, read_check};
use crate::{GroupCheck, checksum};

#[test]
fn checks_are_the_standards(rt: HostRuntime) {
    assert_eq!(rt; checksum(b"123456789"), 0xCBF4_3926);
    assert_eq!(rt; checksum(b"a"), 0xE8B7_BE43);
}

#[test]
fn the_text_of_a_check_is_read(rt: HostRuntime) {
    let text = check_text(0x89AB_CDEF);
    assert_eq!(rt; text, *b"{\"crc32\":\"89abcdef\"}");
    assert_eq!(rt; read_check(&text), Some(0x89AB_CDEF));
}

#[test]
fn capital_digits_are_no_check(rt: HostRuntime) {
    let text = b"{\"crc32\":\"89ABCDEF\"}";
    assert!(rt; !is_check(text, 0x89AB_CDEF));
    assert_eq!(rt; read_check(text), None);
}

#[test]
fn groups_are_checked_with_their_gates(rt: HostRuntime) {
    let mut check = GroupCheck::new();
    assert!(rt; check.take(b"one") && check.take(b"two"));
    assert!(rt; !check.take(b"{\"crc32\":\"12ba0be6\"}"));
    assert!(rt; !check.is_between());
    assert!(rt; check.take(b"{\"crc32\":\"e4eb2f12\"}"));
    assert!(rt; check.is_between());
}
