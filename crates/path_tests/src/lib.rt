//! Tests of paths and routings, and of the schemes that take them as they are. There is nothing else here.
#![tactic(auto)]

#[cfg(test)]
mod ecmp_split_tests;
#[cfg(test)]
mod k_paths_tests;
#[cfg(test)]
mod path_budget_tests;
#[cfg(test)]
mod robust_routing_tests;
#[cfg(test)]
mod routing_tests;
#[cfg(test)]
mod scheme_tests;
#[cfg(test)]
mod shortest_path_tests;
#[cfg(test)]
mod thirds;
#[cfg(test)]
mod valiant_mix_tests;
