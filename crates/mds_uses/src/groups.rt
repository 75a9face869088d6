//! A call of `mds_groups`.
ghost use Rattle.std.specs.Prelude.{◌≡◌, OnOk};
ghost use Rattle.mds_groups.specs.Form.{ended};
ghost use Rattle.mds_groups.specs.declared.form.JournalForm.TheVariants.{Checked};

use mds_groups::{JournalForm, end_group};
use mds_journal::{Group, PushError};

/// Ends a group that is to be written into a journal of version 2: behind its texts stands their check.
pub fn end_checked(group: &mut Group) -> Result<(), PushError>
    ensures { OnOk result (group.new ≡ ended Checked group.old) }
{
    end_group(group, JournalForm::Checked)
}
