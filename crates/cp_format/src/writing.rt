ghost use Rattle.std.specs.Prelude.{◌≡◌, ◌≤◌, ◌++◌, ◌∷◌, length, true, is_some, IfSome, OnOk, OnErr};
ghost use Rattle.std.specs.List.{flat_map, AllByRecursion};
ghost use Rattle.std.specs.Option.{option_map};
ghost use Rattle.cp_path.specs.Encoding.{counted_bytes, path_bytes, place_bytes};
ghost use Rattle.cp_path.specs.Place.{in_target};
ghost use Rattle.cp_record.specs.Bytes.{letter, source_bytes, record_bytes};
ghost use Rattle.cp_record.specs.Kept.{is_copy, IsLabel, IsPackable, IsPath, IsPlace};
ghost use Rattle.cp_record.specs.Packed.{Grew};

use cp_model::{RecOp, Record};
use cp_path::{LABEL_MAX, Label, Loc, Path};
use std::alloc::AllocError;

/// Appends bytes behind their number. Costs them. After an error `out` begins with what it held.
pub fn put_counted(bytes: &[u8], out: &mut Vec<u8>) -> Result<(), AllocError>
    requires { length bytes.now ≤ LABEL_MAX }
    ensures ok { OnOk result (out.new.items ≡ out.old.items ++ counted_bytes bytes.now) }
    ensures err { Grew out.old.items out.new.items }
{
    out.push(bytes.len() as u8)?;
    out.extend_from_slice(bytes)?;
    Ok(())
}

/// Writes labels, each behind its length.
fn put_labels(labels: &[Label], out: &mut Vec<u8>) -> Result<(), AllocError>
    ensures ok { OnOk result (out.new.items ≡ out.old.items ++ flat_map counted_bytes labels.now) }
    ensures labels { OnOk result (AllByRecursion IsLabel labels.now) }
    ensures err { Grew out.old.items out.new.items }
{
    for label in labels {
        put_counted(label.as_str().as_bytes(), out)?;
    }
    Ok(())
}

/// Appends the labels of a path behind their number. Costs their bytes. After an error `out` begins with what it held.
pub fn put_path(path: &Path, out: &mut Vec<u8>) -> Result<(), AllocError>
    ensures ok { OnOk result (out.new.items ≡ out.old.items ++ path_bytes path.now) }
    ensures path { OnOk result (IsPath path.now) }
    ensures err { Grew out.old.items out.new.items }
{
    let labels = path.labels();
    out.push(labels.len() as u8)?;
    put_labels(labels, out)
}

/// Appends the name and the path of a place. Costs its bytes. After an error `out` begins with what it held.
pub fn put_place(place: &Loc, out: &mut Vec<u8>) -> Result<(), AllocError>
    ensures ok { OnOk result (out.new.items ≡ out.old.items ++ place_bytes place.now) }
    ensures place { OnOk result (IsPlace place.now) }
    ensures err { Grew out.old.items out.new.items }
{
    put_counted(place.db.as_str().as_bytes(), out)?;
    put_path(&place.path, out)
}
