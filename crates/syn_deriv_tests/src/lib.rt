//! Tables of derivation files: texts that are read and printed again, and texts with one wrong line, each with the line that is
//! refused.
#![tactic(auto)]

#[cfg(test)]
mod answers;
#[cfg(test)]
mod lines;
#[cfg(test)]
mod wide;
#[cfg(test)]
mod worked;
