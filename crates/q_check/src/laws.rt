//! What the lines that are told of a file of conf are, line by line: a law, and no work.
ghost use Rattle.q_check.specs.Refusals.{AreParamFaults, AreTableFaults};

/// The lines at fault that are told are those that reading refuses, where a line that is refused adds
/// nothing to what was read; behind them come, of the parameters, those of values that disagree. For
/// proofs; it does nothing.
pub fn faults_are_refusals()
    ensures table { AreTableFaults }
    ensures params { AreParamFaults }
{}
