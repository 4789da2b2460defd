//! A law of the calm rows of a run, the contract of a function that does nothing.
ghost use Rattle.run_rows.specs.RunRows.{RunRowsLaw};

/// In the calm rows of a run undriven bits and the clock keep still, and what probes reach by them is what they reach in
/// the run.
pub fn run_rows_law()
    ensures { RunRowsLaw }
{}
