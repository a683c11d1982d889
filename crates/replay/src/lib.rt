// What the test programs about halls share: calls made as rows give them, and the lines about their answers.
#![tactic(auto)]

mod calls;
mod lines;

pub use calls::{Call, geometry_id, run_call};
pub use lines::{accepted, lent, outcome, refused};
