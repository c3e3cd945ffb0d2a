//! Masks, enabledness and clashes, run over tables and compared with what they should be.
#![tactic(auto)]

#[cfg(test)]
mod tests;
