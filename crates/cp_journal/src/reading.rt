//! A range of a file, read in pieces.
ghost use Rattle.std.specs.Prelude.{◌≡◌, ◌≤◌, ◌<◌, ◌⊎◌, ◌+◌, ◌-◌, ◌*◌, IsErrOf, length, take, drop, OnOk, OnErr};
ghost use Rattle.cp_disk.specs.Counts.{UsesDisk};
ghost use Rattle.cp_disk.specs.Views.{IfKnown, Rests};

use crate::fault::JournalFault;
use cp_disk::{DISK_MAX, Disk, READ_MAX};

// Makes `into` these bytes, with a read for each piece. After an error what it holds is not said.
pub(crate) fn read_range<D: Disk>(
    disk: &mut D,
    at: u64,
    len: u64,
    into: &mut Vec<u8>,
) -> Result<(), JournalFault>
    requires most { at + len ≤ DISK_MAX }
    requires within { IfKnown (D.known disk.old) (λ v. at + len ≤ length v.content) }
    ensures bytes { IfKnown (D.known disk.old) (λ v. OnOk result (into.new.items ≡ take len (drop at v.content))) }
    ensures rests { Rests (D.known disk.old) (D.known disk.new) }
    ensures kinds { OnErr result (IsErrOf result JournalFault.Disk ⊎ IsErrOf result JournalFault.Memory) }
    ensures cause { UsesDisk (λ e. e ≡ JournalFault.Disk) (D.known disk.old) (D.known disk.new) result }
    ensures reads { READ_MAX * (D.known disk.new).counts.reads ≤ READ_MAX * (D.known disk.old).counts.reads + len + (READ_MAX - 1) }
{
    into.clear();
    let mut page = [0u8; READ_MAX];
    let mut done = 0;
    while done < len {
        let count = (len - done).min(READ_MAX as u64) as usize;
        disk.read(at + done, &mut page[..count])?;
        into.extend_from_slice(&page[..count])?;
        done += count as u64;
    }
    Ok(())
}
