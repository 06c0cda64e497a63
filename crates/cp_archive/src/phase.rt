//! The phases of a path.
ghost use Rattle.std.specs.Prelude.{◌≡◌, IfOk};
ghost use Rattle.std.specs.Option.{option_copied};
ghost use Rattle.cp_archive.specs.Phases.{content_at, IsRising};

use cp_tree::SharedContent;
use std::alloc::AllocError;

/// From this version on a path has this content, or isn't there, until its next phase.
#[derive(Drop)]
pub struct Phase {
    pub(crate) since: u64,
    pub(crate) content: Option<SharedContent>,
}

impl Phase {
    /// Makes one with the same content, if there is one.
    pub(crate) fn new(since: u64, content: Option<&SharedContent>) -> Result<Phase, AllocError>
        ensures since { IfOk result (λ x. x.since ≡ since) }
        ensures content { IfOk result (λ x. x.content ≡ option_copied content.entry) }
    {
        let content = match content {
            Some(content) => Some(content.share()?),
            None => None,
        };
        Ok(Phase { since, content })
    }
}

/// Finds what the newest phase up to a version says. Costs a logarithm of the phases.
pub(crate) fn content_at(phases: &[Phase], version: u64) -> Option<&SharedContent>
    requires { IsRising phases.now }
    ensures { option_copied result ≡ content_at phases.now version }
{
    let count = phases.partition_point(|phase| phase.since <= version);
    if count == 0 {
        return None;
    }
    phases[count - 1].content.as_ref()
}
