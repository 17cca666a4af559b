//! What stands while constructors run.
use scc_elab_grown::Grown;

/// What is made so far, and the last process that the constructor that runs declared.
pub struct Moment {
    pub grown: Grown,
    pub last: Option<u32>,
}

impl Drop for Moment {
    fn drop(self) {
        let Moment {
            grown: _grown,
            last: _last,
        } = self;
    }
}
