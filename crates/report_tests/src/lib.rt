//! Tests of `rev_input`, `rev_report` and `rev_parallel` by what no run of the program shows: readers and writers that
//! fail, and what a run leaves. Whole runs, from bytes to bytes, are in `tests/reports`. These tests stand in a crate
//! of their own, over the proved libraries, so that nothing but the tests is proved here.
#![tactic(auto)]

#[cfg(test)]
mod devices;
#[cfg(test)]
mod left;
#[cfg(test)]
mod readers;
