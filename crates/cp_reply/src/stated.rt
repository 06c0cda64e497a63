ghost use Rattle.cp_reply.specs.SharingLaws.{CommitsAreOnTheLastTree, CuratorsAreAnsweredAlone};

/// States laws of several curators' sessions, and does nothing when it runs.
///
/// Each turn adds at most one entry to the history, and the operations of each commit were accepted on exactly the tree before it. As
/// long as a curator's transaction is open, his operations are answered as in a session of his own on the history with which it began.
pub fn laws()
    ensures commits { CommitsAreOnTheLastTree }
    ensures alone { CuratorsAreAnsweredAlone }
{}
