ghost use Rattle.cp_model.specs.Laws.{LookUps, CountsOfReplacement, OperationsKeepTrees, OriginsAreThere, HistoriesAreSound, RowsReadAsEffects, RecordsWalkBack, VersionsAreLegal, LastVersionIsAll, VersionsAreStates};
ghost use Rattle.cp_model.specs.Rising.{RecordsRise};

/// States laws of the definitions, and does nothing when it runs.
///
/// Whatever operations are accepted, look-ups after them are those of the tree before; a legal history keeps every
/// tree within its limits, its places closed upwards and its origins in the tree before; and the records of all its
/// steps, followed back from the last, give at each place the past that the replay gave it, in all four kinds. Each
/// version of a legal history is the state of a legal history, with the rows of the steps up to it; the last is the
/// history's own state. The records of a legal history rise by step and place, and each is of a place of T.
pub fn laws()
    ensures lookups { LookUps }
    ensures counts { CountsOfReplacement }
    ensures operations { OperationsKeepTrees }
    ensures origins { OriginsAreThere }
    ensures histories { HistoriesAreSound }
    ensures reading { RowsReadAsEffects }
    ensures pasts { RecordsWalkBack }
    ensures records { RecordsRise }
    ensures legal_versions { VersionsAreLegal }
    ensures last_version { LastVersionIsAll }
    ensures versions { VersionsAreStates }
{}
