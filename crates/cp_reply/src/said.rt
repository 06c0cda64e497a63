use crate::reply::Reply;
use cp_path::Name;

/// A reply, and the curator to whom it goes where the input is that of several.
#[derive(Drop)]
pub struct Said {
    pub whose: Option<Name>,
    pub reply: Reply,
}

impl Said {
    /// Lets the reply go.
    pub fn discard(self) {
        let Said { whose, reply } = self;
        drop(whose);
        reply.discard();
    }
}
