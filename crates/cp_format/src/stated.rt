ghost use Rattle.std.specs.Prelude.{ℕ};
ghost use Rattle.cp_format.specs.Contents.{content_format};
ghost use Rattle.cp_format.specs.Formats.{IsExact};
ghost use Rattle.cp_format.specs.Laws.{LengthsAreCounted, NoneBeginsAnother};
ghost use Rattle.cp_format.specs.Operations.{op_format};

/// States that bytes begin with the spelling of one record at most, of one content, whatever room its text has, and of
/// one short operation, and does nothing when it runs. So what is read is the very thing that was written there. And the
/// bytes of a short operation are as many as a commit counts for it.
pub fn laws()
    ensures records { NoneBeginsAnother }
    ensures contents { (room : ℕ) → IsExact (content_format room) }
    ensures operations { IsExact op_format }
    ensures lengths { LengthsAreCounted }
{}
