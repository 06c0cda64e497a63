/// How a store records: naive, transactional, hierarchical, or both of the latter.
#[derive(Clone, Copy)]
pub enum Kind {
    N,
    T,
    H,
    HT,
}
