ghost use Rattle.cp_spelling.specs.Laws.{PlaceLaws, LabelLaws, ValueLaws, StringsReadBack};

/// States laws of spellings and readings, and does nothing when it runs.
///
/// What is written is read back, a word spells one thing, a word that is read spells what it is read as, a fault says
/// what is wrong with its word, and a spelling stands in quotation marks or has no byte that asks for them.
pub fn laws()
    ensures places { PlaceLaws }
    ensures labels { LabelLaws }
    ensures values { ValueLaws }
    ensures strings { StringsReadBack }
{}
