//! Source files: each is read, and gives a tree or the first refusal of its reading.
ghost use Rattle.std.specs.Prelude.{◌≡◌, IfOk};
ghost use Rattle.std.specs.Option.{option_map};
ghost use Rattle.cp_workspace.specs.Fetching.{file_gives, form_given, json_why, csv_why};
ghost use Rattle.cp_workspace.specs.Fetched.{Gives, GivesFound, FitsUnder};
ghost use Rattle.cp_workspace.specs.Files.{known_files, HasRead, UsesFiles};

use crate::limits::FILE_MAX;
use cp_model::Form;
use cp_outside::{FileEnd, Files, FilesFault};
use cp_path::{Label, Loc, Name};
use cp_reply::Why;
use cp_sources::{CsvFault, JsonFault, tree_of_csv, tree_of_json};
use cp_tree::TreeRep;
use std::alloc::{AllocError, Global};

/// Why a JSON text that is loaded under the name gives no tree.
fn why_of_json(name: &Name, fault: JsonFault) -> Result<Why, AllocError>
    ensures { IfOk result (λ w. (¬ (fault ≡ JsonFault.Memory)) × (w ≡ json_why name.now fault)) }
{
    match fault {
        JsonFault::NotJson => Ok(Why::NotJson),
        JsonFault::LabelTooLong => Ok(Why::LabelTooLong),
        JsonFault::TooDeep => Ok(Why::PlaceTooDeep),
        JsonFault::PathTooLong => Ok(Why::PlaceTooLong),
        JsonFault::TextTooLong => Ok(Why::TextTooLong),
        JsonFault::TooMany => Ok(Why::TooMany),
        JsonFault::TooBig => Ok(Why::TooBig),
        JsonFault::NotWhole(path) => Ok(Why::NotWhole(Loc {
            db: name.clone()?,
            path,
        })),
        JsonFault::Memory => Err(AllocError),
    }
}

/// Why a CSV text gives no tree.
fn why_of_csv(fault: CsvFault) -> Result<Why, AllocError>
    ensures { IfOk result (λ w. (¬ (fault ≡ CsvFault.Memory)) × (w ≡ csv_why fault)) }
{
    match fault {
        CsvFault::NoHeader => Ok(Why::NoHeader),
        CsvFault::NotUtf8(row) => Ok(Why::NotUtf8(row)),
        CsvFault::LabelTooLong => Ok(Why::LabelTooLong),
        CsvFault::RepeatedHeader(column) => Ok(Why::RepeatedHeader(column)),
        CsvFault::NoColumn => Ok(Why::NoColumn),
        CsvFault::Ragged(row) => Ok(Why::Ragged(row)),
        CsvFault::TextTooLong => Ok(Why::TextTooLong),
        CsvFault::RepeatedKey(row) => Ok(Why::RepeatedKey(row)),
        CsvFault::TooMany => Ok(Why::TooMany),
        CsvFault::TooBig => Ok(Why::TooBig),
        CsvFault::Memory => Err(AllocError),
    }
}

/// The tree of a JSON text, or why it gives none. Costs the text, and what it gives.
fn from_json<R: TreeRep>(
    alloc: Global,
    name: &Name,
    bytes: &[u8],
) -> Result<Result<R, Why>, AllocError>
    ensures gives { IfOk result
        (λ r. Gives R.contents (form_given name.now Form.Json bytes.now) r) }
    ensures fits { IfOk result (λ r. IfOk r (λ t. FitsUnder name.now (R.contents t))) }
{
    match tree_of_json(alloc, name, bytes) {
        Ok(tree) => Ok(Ok(tree)),
        Err(fault) => Ok(Err(why_of_json(name, fault)?)),
    }
}

/// The tree of a CSV text, or why it gives none. Costs the text, and what it gives.
fn from_csv<R: TreeRep>(
    alloc: Global,
    name: &Name,
    bytes: &[u8],
    key: Option<&Label>,
) -> Result<Result<R, Why>, AllocError>
    ensures gives { IfOk result
        (λ r. Gives R.contents
        (form_given name.now (Form.Csv (option_map (λ k. k.now) key.entry)) bytes.now) r) }
    ensures fits { IfOk result (λ r. IfOk r (λ t. FitsUnder name.now (R.contents t))) }
{
    match tree_of_csv(alloc, name, bytes, key) {
        Ok(tree) => Ok(Ok(tree)),
        Err(fault) => Ok(Err(why_of_csv(fault)?)),
    }
}

/// The tree of a text of this form, or why it gives none.
fn from_text<R: TreeRep>(
    alloc: Global,
    name: &Name,
    form: &Form,
    bytes: &[u8],
) -> Result<Result<R, Why>, AllocError>
    ensures gives { IfOk result (λ r. Gives R.contents (form_given name.now form.now bytes.now) r) }
    ensures fits { IfOk result (λ r. IfOk r (λ t. FitsUnder name.now (R.contents t))) }
{
    match form {
        Form::Json => from_json(alloc, name, bytes),
        Form::Csv(key) => from_csv(alloc, name, bytes, key.as_ref()),
    }
}

/// The tree of the file that is loaded under the name, or why it gives none. Holds at most 67,108,864 bytes of the file,
/// and costs them and what they give.
pub fn fetch<R: TreeRep, F: Files>(
    alloc: Global,
    files: &mut F,
    name: &Name,
    form: &Form,
    file: &str,
) -> Result<Result<R, Why>, FilesFault>
    ensures gives { IfOk result
        (λ r. GivesFound R.contents (known_files F.Files files.old)
        (λ t. file_gives name.now form.now (t file.now)) r) }
    ensures fits { IfOk result (λ r. IfOk r (λ t. FitsUnder name.now (R.contents t))) }
    ensures used { UsesFiles (λ e. e ≡ FilesFault.Failed) (known_files F.Files files.old)
        (known_files F.Files files.new) result }
    ensures read { HasRead (known_files F.Files files.old) (known_files F.Files files.new) 1 }
{
    let mut bytes = Vec::new(alloc);
    match files.read_file(file, FILE_MAX, &mut bytes)? {
        FileEnd::Whole => Ok(from_text(alloc, name, form, bytes.as_slice())?),
        FileEnd::TooLong => Ok(Err(Why::FileTooLong)),
        FileEnd::Missing => Ok(Err(Why::NoFile)),
    }
}
