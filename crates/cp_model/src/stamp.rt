use cp_path::Label;

/// Who committed, and when: seconds since 1970-01-01 00:00 UTC.
#[derive(Drop)]
pub struct Stamp {
    pub curator: Label,
    pub moment: u64,
}
