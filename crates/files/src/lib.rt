// Layer 4: the replay fed by portions of its input.
#![tactic(auto)]

mod ahead;
mod replay;

pub use replay::{
    Fed, LONGEST_LINE, Replay, feed, finish, has_answered, has_stopped, refusal_at_end,
};
