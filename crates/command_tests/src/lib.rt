//! Tests of commands that no run of the program makes: over shelves, sinks and sources that fail, and by workers that
//! gates watch.
#![tactic(auto)]

#[cfg(test)]
mod gates;
#[cfg(test)]
mod of_faults;
#[cfg(test)]
mod of_m2_io;
#[cfg(test)]
mod of_workers;
#[cfg(test)]
mod scenes;
