//! Samples of texts in PGSolver's form, as tests of the crate `pgsolver`.
#![tactic(auto)]

#[cfg(test)]
mod answers;
#[cfg(test)]
mod games;
