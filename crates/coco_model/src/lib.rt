//! What the program's promises mean: gates, settled values, runs, what probes reach and observe, the security
//! statements, and findings. The definitions stand in `specs`; `docs/DEFINITIONS.md` tells them in words.
#![tactic(auto)]

pub mod examples;
