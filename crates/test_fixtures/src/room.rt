//! Room behind the lines of a journal.

/// How many line feeds a file has behind these bytes, where it begins with them and has nothing else. A journal writes them
/// ahead, behind its closed gate.
pub fn room_behind(file: &[u8], front: &[u8]) -> Option<usize> {
    let rest = file.strip_prefix(front)?;
    if rest.iter().all(|byte| *byte == b'\n') {
        Some(rest.len())
    } else {
        None
    }
}
