ghost use Rattle.std.specs.Prelude.{◌≡◌, ◌≤◌, ◌+◌, ◌++◌, ◌∷◌, length, OnOk, IfSome};
ghost use Rattle.std.specs.List.{flat_map};
ghost use Rattle.std.specs.Option.{option_map};
ghost use Rattle.cp_path.specs.Encoding.{counted_bytes, path_bytes, place_bytes};
ghost use Rattle.cp_path.specs.Place.{below_place};
ghost use Rattle.cp_record.specs.Bytes.{letter, record_bytes, record_below};
ghost use Rattle.std.specs.List.{AllByRecursion};
ghost use Rattle.std.specs.Prelude.{is_some};
ghost use Rattle.cp_record.specs.Kept.{IsLabel, IsPath, IsPlace, IsPackable, is_copy};
ghost use Rattle.cp_record.specs.Packed.{Grew};

use cp_model::RecOp;
use cp_path::{LABEL_MAX, LABELS_MAX, Label, Loc, Path};
use std::alloc::AllocError;

/// The letter of a record in ASCII.
fn letter(op: RecOp) -> u8
    ensures { result ≡ letter op }
{
    match op {
        RecOp::I => b'I',
        RecOp::C => b'C',
        RecOp::D => b'D',
        RecOp::K => b'K',
    }
}

/// Writes bytes behind their number.
fn push_counted(out: &mut Vec<u8>, bytes: &[u8]) -> Result<(), AllocError>
    requires { length bytes.now ≤ LABEL_MAX }
    ensures ok { OnOk result (out.new.items ≡ out.old.items ++ counted_bytes bytes.now) }
    ensures err { Grew out.old.items out.new.items }
{
    out.push(bytes.len() as u8)?;
    out.extend_from_slice(bytes)?;
    Ok(())
}

/// Writes labels, each behind its length.
fn push_labels(out: &mut Vec<u8>, labels: &[Label]) -> Result<(), AllocError>
    ensures ok { OnOk result (out.new.items ≡ out.old.items ++ flat_map counted_bytes labels.now) }
    ensures labels { OnOk result (AllByRecursion IsLabel labels.now) }
    ensures err { Grew out.old.items out.new.items }
{
    for label in labels {
        push_counted(out, label.as_str().as_bytes())?;
    }
    Ok(())
}

/// Writes the path `below` the path `base`.
fn push_path(out: &mut Vec<u8>, base: &Path, below: &Path) -> Result<(), AllocError>
    requires { length base.now + length below.now ≤ LABELS_MAX }
    ensures ok { OnOk result (out.new.items ≡ out.old.items ++ path_bytes (base.now ++ below.now)) }
    ensures path { OnOk result (IsPath (base.now ++ below.now)) }
    ensures err { Grew out.old.items out.new.items }
{
    let count = base.labels().len() + below.labels().len();
    out.push(count as u8)?;
    push_labels(out, base.labels())?;
    push_labels(out, below.labels())?;
    Ok(())
}

/// Writes the place `below` the place `source`.
fn push_source(out: &mut Vec<u8>, source: &Loc, below: &Path) -> Result<(), AllocError>
    requires { length source.now.path + length below.now ≤ LABELS_MAX }
    ensures ok { OnOk result (out.new.items ≡ out.old.items ++ place_bytes (below_place source.now below.now)) }
    ensures place { OnOk result (IsPlace (below_place source.now below.now)) }
    ensures err { Grew out.old.items out.new.items }
{
    push_counted(out, source.db.as_str().as_bytes())?;
    push_path(out, &source.path, below)?;
    Ok(())
}

/// Writes the record of the place `below` the place `base` of T, from the place `below` the source. An error leaves a
/// part of it behind what was there.
pub(crate) fn push_record(
    out: &mut Vec<u8>,
    tid: u64,
    op: RecOp,
    base: &Path,
    below: &Path,
    source: Option<&Loc>,
) -> Result<(), AllocError>
    requires place { length base.now + length below.now ≤ LABELS_MAX }
    requires source { IfSome source (λ q. length q.now.path + length below.now ≤ LABELS_MAX) }
    requires source_of_copy { is_some source ≡ is_copy op }
    ensures ok { OnOk result (out.new.items ≡ out.old.items ++ record_bytes (record_below tid op base.now below.now (option_map (λ q. q.now) source.entry))) }
    ensures kept { OnOk result (IsPackable (record_below tid op base.now below.now (option_map (λ q. q.now) source.entry))) }
    ensures err { Grew out.old.items out.new.items }
{
    out.extend_from_slice(&tid.to_be_bytes())?;
    out.push(letter(op))?;
    push_path(out, base, below)?;
    match source {
        None => Ok(()),
        Some(source) => {
            push_source(out, source, below)?;
            Ok(())
        }
    }
}
