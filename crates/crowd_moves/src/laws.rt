//! Laws of moves that are clear of each other. The calls do nothing; a proof that has two such moves cites what they ensure.

ghost use Rattle.crowd_moves.specs.Laws.{ComeNoNearer, DoStayApart};

/// Two agents that are apart, with moves that are clear of each other, are apart at every moment of the step.
pub fn stay_apart()
    ensures { DoStayApart }
{}

/// Two agents that overlap, with moves that are clear of each other, come no nearer at any moment of the step.
pub fn no_nearer()
    ensures { ComeNoNearer }
{}
