//! Laws of right answers in a build, whoever gives them: a question, an eye, a walker, a view, a host's call, a run's text. The calls do nothing; a
//! proof that has a right answer cites what they ensure.

ghost use Rattle.nav_query.specs.Laws.{HasUnfoldedHops, HasUnfoldedPaths, HoldsOfBuilds};

/// In every build, no portal on the way of a right answer to the question for a path folds back on the one before it.
pub fn paths_never_fold()
    ensures { HoldsOfBuilds HasUnfoldedPaths }
{}

/// In every build the same holds of each stretch of a right answer to the question for a hop walk: a stretch of a cheapest hop walk is itself a
/// cheapest walk over links.
pub fn hops_never_fold()
    ensures { HoldsOfBuilds HasUnfoldedHops }
{}
