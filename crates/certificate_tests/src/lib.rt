//! Tests of certificates: their parts, their text, the verdict on one, the best blocks of one, updates from one to another,
//! rates that survive failed links, hose bounds, and witnesses that are sought. There is nothing else here.
#![tactic(auto)]

#[cfg(test)]
mod block_reader_tests;
#[cfg(test)]
mod blocks;
#[cfg(test)]
mod cases;
#[cfg(test)]
mod cert_text_tests;
#[cfg(test)]
mod fault_rates_tests;
#[cfg(test)]
mod hose_bound_tests;
#[cfg(test)]
mod kept_ways_tests;
#[cfg(test)]
mod number_tables_tests;
#[cfg(test)]
mod ratio_certificate_tests;
#[cfg(test)]
mod ratio_checker_tests;
#[cfg(test)]
mod te_model_tests;
#[cfg(test)]
mod update_plan_tests;
#[cfg(test)]
mod window_tests;
#[cfg(test)]
mod witness_search_tests;
