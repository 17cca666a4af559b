//! Segments of a thread, built and counted along the parts of its live body.
//!
//! The live body of a thread is made into parts (`scc_states_segments`): a statement that opens nothing is one
//! part, whole, and each wait has its number. A path stands at a part, with frames of what follows, the innermost
//! last. `unfolded` builds a segment along such a path and counts its statements at once, so nothing past the
//! limits is built. Blocks, loops and exits are frames alone, so a body is gone over once, and then each segment.
#![tactic(auto)]

mod body;
mod cuts;
mod types;
mod unfold;

pub use body::{CutBody, cut_body};
pub use cuts::cuts as segments_behind;
pub use types::{SegNode, SegStmt};
pub use unfold::unfolded;
