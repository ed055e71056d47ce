//! Tables of rows as texts, and the canonical row of each; and rows about the limits.
#![tactic(auto)]

#[cfg(test)]
mod canonical_rows;
#[cfg(test)]
mod limits;
