//! Tables of initial rows over a theory and some specifications, of rows that are final or not, and of the programs of rows.
#![tactic(auto)]

#[cfg(test)]
mod final_rows;
#[cfg(test)]
mod initial_rows;
#[cfg(test)]
mod samples;
