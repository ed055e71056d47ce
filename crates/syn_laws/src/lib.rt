//! Laws on evaluation and truth over whole theories, without any code. Only the variables of a tree count,
//! and of a formula with quantifiers the free ones; a renaming agrees with a change of environment, and so
//! does a substitution whose terms have values; the axioms of a small theory of numbers hold, and those of
//! one that states `0 = 1` don't. They show that the definitions are not empty, and later proofs stand on
//! them.
#![tactic(auto)]
