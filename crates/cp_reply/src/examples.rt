ghost use Rattle.cp_reply.specs.Examples.{CopyPasteHolds, CopiesHold, NetEffectsHold, InsertedTreesHold, TransactionsHold, RefusalsHold, SourcesHold, SharedHold, SpellingsHold};

/// Does nothing when it runs. Its contract states worked examples of the definitions, whole sessions with the text that they write,
/// and the check proves each of them by computation: so a definition that says something else than these examples is refused.
pub fn worked_examples()
    ensures copy_paste { CopyPasteHolds }
    ensures copies { CopiesHold }
    ensures net_effects { NetEffectsHold }
    ensures inserted_trees { InsertedTreesHold }
    ensures transactions { TransactionsHold }
    ensures refusals { RefusalsHold }
    ensures sources { SourcesHold }
    ensures shared { SharedHold }
    ensures spellings { SpellingsHold }
{}
