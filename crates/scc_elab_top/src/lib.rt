//! Construction from the top by the definitions (IEEE 1666-2011, 4.1: elaboration): its constructor is run (`scc_elab_made`), what is
//! looked for then is looked for (`scc_elab_after`), and what is left is the design (`scc_elab_left`).
#![tactic(auto)]

mod calls;

pub use calls::constructed;
