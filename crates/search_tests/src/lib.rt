//! Tests of searches over tables that another thread or handle fills meanwhile: what they answer, how many rows they
//! load, and whether an answer is ever taken back.
#![tactic(auto)]

#[cfg(test)]
mod filling;
#[cfg(test)]
mod of_dky_search;
#[cfg(test)]
mod of_scope_core;
#[cfg(test)]
mod of_threads;
#[cfg(test)]
mod opening;
