ghost use Rattle.cp_reply.specs.SharingLaws.{ReadsWritten};
ghost use Rattle.cp_workspace.specs.Texts.{Terms, setting};

/// States that each operation which a session reads can be written, as the laws of several curators ask, and does nothing when it runs.
pub fn laws()
    ensures written { (terms : Terms) → ReadsWritten (setting terms) }
{}
