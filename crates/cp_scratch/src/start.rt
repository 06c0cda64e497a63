//! What a history starts from, and the curator of calls that have none.
ghost use Rattle.std.specs.Prelude.{◌≡◌, [], IfOk};
ghost use Rattle.cp_workspace.specs.Fetched.{GivesFound};
ghost use Rattle.cp_workspace.specs.Files.{known_files, Reads, UsesFiles};
ghost use Rattle.cp_scratch.specs.Starts.{start_given, start_reads};

use cp_model::{Content, Form};
use cp_outside::{Files, FilesFault};
use cp_path::{Label, Name};
use cp_reply::Why;
use cp_tree::TreeRep;
use cp_words::Start;
use cp_workspace::fetch;
use std::alloc::{AllocError, Global};

/// The tree that a history starts from, or why it starts from none.
pub fn start_tree<R: TreeRep, F: Files>(
    alloc: Global,
    start: Start,
    files: &mut F,
) -> Result<Result<R, Why>, FilesFault>
    ensures gives { IfOk result
        (λ r. GivesFound R.contents (known_files F.Files files.old) (λ t. start_given t start) r) }
    ensures used { UsesFiles (λ e. e ≡ FilesFault.Failed) (known_files F.Files files.old)
        (known_files F.Files files.new) result }
    ensures reads { Reads (λ e. e ≡ FilesFault.Failed) (start_reads start)
        (known_files F.Files files.old) (known_files F.Files files.new) result }
{
    match start {
        Start::Alone => Ok(Ok(R::single(alloc, &Content::Node)?)),
        Start::TreeIn(file) => {
            let name = Name::target(alloc)?;
            fetch(alloc, files, &name, &Form::Json, file.as_str())
        }
    }
}

/// The curator of those that commit without one, and of calls that commit nothing.
pub fn no_curator(alloc: Global) -> Result<Label, AllocError>
    ensures { IfOk result (λ a. a ≡ []) }
{
    Label::copy_of(alloc, "")
}
