//! What do the streams of a unit leave, when their tasks are made turn by turn?
//!
//! One output for each stream, in their order, whatever the turns: so `unit_tasks` says it of each stream, and
//! `merge_laws` says that merging them gives what the unit comes to. `run_turns` makes the turns that it is told,
//! over the scopes of one thread, and finishes what is left in the order of the scopes; there no turn has to wait,
//! since every smaller scope is complete. Between two turns holds one record (`specs/Stands`): each task is as far as
//! its scope says.
#![tactic(auto)]

mod tasks;
mod turns;

pub use tasks::tasks_of;
pub use turns::run_turns;
