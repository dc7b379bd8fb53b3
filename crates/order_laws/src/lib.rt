//! The order of packets through the pipeline of receivers, processors, slow path and forwarders, over any decision and any
//! answers: what the sequential router sends, what each worker owes over its own ends of the pipes, and what follows where
//! all have kept it: definitions and laws. It knows no single act. Nothing here runs.
#![tactic(auto)]

pub mod laws;
