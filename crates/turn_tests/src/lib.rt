//! Tests of the turns of tasks over the scopes of one thread.
#![tactic(auto)]

#[cfg(test)]
mod of_supervisor;
#[cfg(test)]
mod units;
