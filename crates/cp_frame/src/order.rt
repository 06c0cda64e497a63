//! Where labels and records that are to rise are seen not to.
ghost use Rattle.std.specs.Prelude.{◌≡◌, ◌≤◌, ◌<◌, ◌^◌, ℕ, length, nat_eq, None, Some, IfErr, IfOk, IfSome};
ghost use Rattle.std.specs.List.{common_prefix_len, flat_map};
ghost use Rattle.cp_path.specs.Encoding.{counted_bytes};
ghost use Rattle.cp_model.specs.Changes.{goes_before};
ghost use Rattle.cp_model.specs.Place.{Path};
ghost use Rattle.cp_record.specs.Kept.{AreCounted};
ghost use Rattle.cp_format.specs.Judging.{IsRefused, MayPass};
ghost use Rattle.cp_format.specs.Parts.{label_format, record_format};
ghost use Rattle.cp_frame.specs.Entries.{record_decided_at};
ghost use Rattle.cp_frame.specs.Trees.{comes_after, decided_at};
ghost use Rattle.cp_frame.specs.OrderReading.{LabelIsEarly, LabelMayFollow, LabelsAreEarly, LabelsMayFollow, PathIsEarly, PathMayFollow, end_of};

use cp_format::FormatFault;
use cp_record::PackedRecord;

/// How many bytes the two have in common at their front. Costs them.
fn common(one: &[u8], other: &[u8]) -> usize
    ensures { result ≡ common_prefix_len nat_eq one.now other.now }
{
    let most = one.len().min(other.len());
    for k in 0..most {
        if one[k] != other[k] {
            return k;
        }
    }
    most
}

/// The offset, in a label of `count` bytes after its length, of the byte at which it is seen not to come after `elder`. It
/// begins with the bytes `begun`. Costs what the two have in common.
fn text_early(elder: &[u8], begun: &[u8], count: usize) -> Option<usize>
    ensures early { IfSome result (LabelIsEarly elder.now begun.now count) }
    ensures follows { result ≡ None → LabelMayFollow elder.now begun.now count }
{
    let same = common(elder, begun);
    if same == begun.len() {
        if same == count {
            return Some(count);
        }
        return None;
    }
    if same == elder.len() || elder[same] < begun[same] {
        return None;
    }
    Some(same + 1)
}

/// The same of a label whose spelling begins so, its length first.
pub(crate) fn label_early(elder: &[u8], begun: &[u8]) -> Option<usize>
    ensures early { IfSome result (λ at. (most : ℕ) → IsRefused (label_format most) (comes_after (Some elder.now)) (decided_at elder.now) begun.now at) }
    ensures follows { result ≡ None → (most : ℕ) → MayPass (label_format most) (comes_after (Some elder.now)) (decided_at elder.now) begun.now }
{
    if begun.is_empty() {
        return None;
    }
    text_early(elder, &begun[1..], begun[0] as usize)
}

/// The same of `count` labels, each after its length, and one at least. Costs what they have in common with those of
/// `elder`; calls itself once for each label of a path.
#[cycle(labels)]
fn labels_early(elder: &[u8], begun: &[u8], count: usize) -> Option<usize>
    requires counted { AreCounted elder.now }
    requires some { 1 ≤ count }
    ensures early { (p : Path) → elder.now ≡ flat_map counted_bytes p → IfSome result (LabelsAreEarly p begun.now count) }
    ensures follows { (p : Path) → elder.now ≡ flat_map counted_bytes p → result ≡ None → LabelsMayFollow p begun.now count }
{
    if begun.is_empty() || elder.is_empty() {
        return None;
    }
    let (there, beyond) = elder[1..].split_at(elder[0] as usize);
    let len = begun[0] as usize;
    let (label, behind) = begun[1..].split_at(len.min(begun.len() - 1));
    if count > 1 && label.len() == len && label == there {
        let early = labels_early(beyond, behind, count - 1)?;
        return Some(1 + len + early);
    }
    text_early(there, label, len)
}

/// The same of a path, the number of its labels first.
fn path_early(elder: &[u8], begun: &[u8]) -> Option<usize>
    requires counted { AreCounted elder.now }
    ensures early { (p : Path) → elder.now ≡ flat_map counted_bytes p → IfSome result (PathIsEarly p begun.now) }
    ensures follows { (p : Path) → elder.now ≡ flat_map counted_bytes p → result ≡ None → PathMayFollow p begun.now }
{
    if begun.is_empty() {
        return None;
    }
    if begun[0] == 0 {
        return Some(0);
    }
    let early = labels_early(elder, &begun[1..], begun[0] as usize)?;
    Some(1 + early)
}

/// The same of a record: the offset of the byte at which it is seen not to come after `elder`. Its spelling begins so.
pub(crate) fn record_early(elder: &PackedRecord<'_>, begun: &[u8]) -> Option<usize>
    ensures early { IfSome result (IsRefused record_format (goes_before elder.now) (record_decided_at elder.now) begun.now) }
    ensures follows { result ≡ None → MayPass record_format (goes_before elder.now) (record_decided_at elder.now) begun.now }
{
    let tid = elder.tid().to_be_bytes();
    let same = common(&tid, begun);
    if same == begun.len() {
        return None;
    }
    if same < tid.len() {
        if tid[same] < begun[same] {
            return None;
        }
        return Some(same);
    }
    let early = path_early(elder.labels(), &begun[same + 1..])?;
    Some(same + 1 + early)
}

/// How far bytes were read from the offset `at` on: to the end of what stands there, or to the fault.
pub(crate) fn read_to<T>(read: &Result<(T, usize), FormatFault>, at: usize) -> usize
    ensures { result ≡ end_of read.now at }
{
    match read {
        Ok((_, next)) => *next,
        Err(FormatFault::BadByte(n)) => *n,
        Err(FormatFault::Memory) => at,
    }
}
