//! Tables of expressions as texts: samples and what they print as, and texts and what they are read
//! as, or that they are refused. They stand apart from the crate that they try, which would be proved
//! a second time with them, and from the other tables, with which they would be one process.
#![tactic(auto)]

#[cfg(test)]
mod printed;
#[cfg(test)]
mod read;
