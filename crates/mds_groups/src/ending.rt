//! The end of a group that is to be written.
ghost use Rattle.std.specs.Prelude.{◌≡◌, ◌⊎◌, ◌+◌, ◌<◌, length, IsErrOf, IfErr, OnOk, OnErr};
ghost use Rattle.mds_journal.specs.Lines.{at_rest};
ghost use Rattle.mds_journal.specs.declared.group.TheConstants.{MAX_GROUP_BYTES};
ghost use Rattle.mds_groups.specs.Form.{ended};

use crate::JournalForm;
use mds_check::checksum;
use mds_check::form::check_text;
use mds_journal::{Group, PushError};

/// Puts behind the texts of a group what ends it in a journal of this form: their check, where groups are checked. A group with no
/// texts stays empty.
///
/// # Errors
///
/// `TooLarge` where the group would have more than [`mds_journal::MAX_GROUP_BYTES`], `Memory`. The group stays as it was.
pub fn end_group(group: &mut Group, form: JournalForm) -> Result<(), PushError>
    ensures ended { OnOk result (group.new ≡ ended form group.old) }
    ensures unchanged { OnErr result (group.new ≡ group.old) }
    ensures only { IfErr result
        (λ error. (error ≡ PushError.TooLarge) ⊎ (error ≡ PushError.Memory)) }
    ensures too_large { IsErrOf result PushError.TooLarge
        → MAX_GROUP_BYTES < length (at_rest group.old) + 22 }
{
    if form == JournalForm::Plain || group.is_empty() {
        return Ok(());
    }
    let check = check_text(checksum(group.open_lines()));
    group.push(check.as_slice())
}
