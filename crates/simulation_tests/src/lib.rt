//! Tests of a simulated step, and of what is led elsewhere where links fail. There is nothing else here.
#![tactic(auto)]

#[cfg(test)]
mod flow_sim_tests;
