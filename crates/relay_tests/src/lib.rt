//! Are all jobs of a relay done in the end, whoever makes their turns?
//!
//! What a relay asks of jobs and of their turns is met here by concrete types (`countdown`): a job takes some turns,
//! and may have to wait for another one first. The tests run such jobs with 1, 2, 8 and 64 workers (`of_relay`).
#![tactic(auto)]

mod countdown;
#[cfg(test)]
mod of_relay;
