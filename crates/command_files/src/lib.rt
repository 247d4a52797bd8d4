//! What the commands read, and the answers that several of them give.
//!
//! - the kinds of files, as `Certificates` or `Topologies`, which `value_in` of `command_frame` reads;
//! - `feed_in`, `head_in`: a certificate that is read one block at a time;
//! - `inputs_in`, `predictions_in`, `outages_in`, `traffic_of`: a plan, and the files that it names;
//! - `decimal_number`: a number that a word spells;
//! - `answer_of`, `failure_answer`: the answer of a status and a text, and that of an inequality that fails.
#![tactic(auto)]

mod answer;
mod certificates;
mod inputs;
mod kind;
mod number;
mod reasons;

pub use answer::{answer_of, failure_answer};
pub use certificates::{feed_in, head_in};
pub use inputs::{Inputs, inputs_in, outages_in, predictions_in, traffic_of};
pub use kind::{
    Capacities, Certificates, FailureFiles, HoseCerts, Hoses, INPUT_LIMIT, Matrices, Plans, Rates,
    Topologies, Witnesses,
};
pub use number::decimal_number;
pub use reasons::{
    CapacityReason, FailureReason, FormatReason, MatrixReason, PlanReason, TopologyReason,
};
