//! Tests of the ports, of the words of a seed, of what files say, and of what is printed. There is nothing else here.
#![tactic(auto)]

#[cfg(test)]
mod cases;
#[cfg(test)]
mod csv_records_tests;
#[cfg(test)]
mod failure_tests;
#[cfg(test)]
mod plan_tests;
#[cfg(test)]
mod random_words_tests;
#[cfg(test)]
mod te_ports_tests;
#[cfg(test)]
mod traffic_matrix_tests;
