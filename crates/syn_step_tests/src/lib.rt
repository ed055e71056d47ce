//! Worked derivations as texts: the row that each step gives, with guards and without; steps that give none; and which
//! derivations are accepted, with their programs.
#![tactic(auto)]

#[cfg(test)]
mod accepted;
#[cfg(test)]
mod chain;
#[cfg(test)]
mod derivations;
#[cfg(test)]
mod given;
#[cfg(test)]
mod guarded;
#[cfg(test)]
mod reading;
#[cfg(test)]
mod samples;
