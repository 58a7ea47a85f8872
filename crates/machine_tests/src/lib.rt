//! Tests of what no command does with objects: parts that are built again, runs in pieces, and sinks and sources that
//! fail.
#![tactic(auto)]

#[cfg(test)]
mod of_object_file;
#[cfg(test)]
mod of_stack_machine;
