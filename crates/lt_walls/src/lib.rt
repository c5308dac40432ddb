// Lemmas on walls of secondary cones and on flips, over any points, forms and simplices that have the stated laws.
#![tactic(auto)]
