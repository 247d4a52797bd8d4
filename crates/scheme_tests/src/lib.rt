//! Tests of the schemes that search, and of their parts. There is nothing else here.
#![tactic(auto)]

#[cfg(test)]
mod brackets;
#[cfg(test)]
mod centred_steps_tests;
#[cfg(test)]
mod commodities;
#[cfg(test)]
mod dual_bounds_tests;
#[cfg(test)]
mod local_search_tests;
#[cfg(test)]
mod mcf_lengths_tests;
#[cfg(test)]
mod multiplicative_lengths_tests;
#[cfg(test)]
mod pathless_tests;
#[cfg(test)]
mod racke_mix_tests;
#[cfg(test)]
mod semi_oblivious_tests;
#[cfg(test)]
mod tree_embed_tests;
