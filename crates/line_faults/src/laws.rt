//! What follows of the faults of a text. The function does nothing: its contract is the law.
ghost use Rattle.std.specs.Prelude.{ℕ, List};
ghost use Rattle.line_faults.specs.Faults.{faults_in};
ghost use Rattle.line_faults.specs.InOrder.{StandAfter};

/// The faults stand in the order of their lines, so each line has one at most. One of no line is the last.
#[tactic(auto, using(crate::proofs::Rising::faults_rise))]
pub fn faults_stand_in_the_order_of_their_lines()
    ensures { (most : ℕ) (text : List ℕ) → StandAfter 0 (faults_in most text) }
{}
