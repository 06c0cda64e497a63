use cp_model::RowList;
use cp_path::Path;

/// A place that a step touched, with the rows of the subtree there before and after, as `TreeRep::rows` gives them: in order,
/// with their paths taken from the place on. There are none where the place isn't there.
#[derive(Drop)]
pub struct Touched {
    pub place: Path,
    pub before: RowList,
    pub after: RowList,
}
