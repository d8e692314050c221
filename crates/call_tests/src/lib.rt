//! Tests of the libraries below, each of which would be proved twice if it had tests of its own:
//! each call by its name, long texts, callers who print and read back, texts in memory of exactly
//! their size, and what is replaced. Worked examples and the vectors of the upstream crate are in
//! `tests/rows`.
#![tactic(auto)]

#[cfg(test)]
mod buffers;
#[cfg(test)]
mod calls;
#[cfg(test)]
mod each_printer;
#[cfg(test)]
mod error_texts;
#[cfg(test)]
mod long;
#[cfg(test)]
mod reading_at_once;
#[cfg(test)]
mod reading_back;
#[cfg(test)]
mod replacing;
#[cfg(test)]
mod scales;
#[cfg(test)]
mod without_memory;
