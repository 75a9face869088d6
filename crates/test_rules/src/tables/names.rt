//! Names of types: values from outside. Files of tables are asked of the built program.
use mds_table::{NameFault, TypeName};

/// Texts, and the fault of each, or `None` where it's the name of a type.
const TYPE_NAMES: &[(&str, Option<NameFault>)] = &[
    ("", Some(NameFault::Empty)),
    (
        "abcdefghijklmnopqrstuvwxyzabcdefg",
        Some(NameFault::TooLong),
    ),
    ("Trip", Some(NameFault::BadByte(0))),
    ("trip-end", Some(NameFault::BadByte(4))),
    ("abcdefghijklmnopqrstuvwxyz_01289", None),
];

/// The first text that has another fault, or whose name, copied, isn't the text.
fn first_other_name(rows: &[(&'static str, Option<NameFault>)]) -> Option<&'static str> {
    for (text, expected) in rows {
        let is_expected = match TypeName::new(text) {
            Ok(name) => expected.is_none() && name.copy().as_str() == *text,
            Err(fault) => *expected == Some(fault),
        };
        if !is_expected {
            return Some(*text);
        }
    }
    None
}

#[test]
fn names_of_types(rt: HostRuntime) {
    assert_eq!(rt; first_other_name(TYPE_NAMES), None);
}
