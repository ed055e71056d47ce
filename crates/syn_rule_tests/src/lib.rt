//! Tables of rows as texts, and what splitting, duality, reflexivity, resolution and equality replacement give of them
//! without guards; and steps about the limits of a step.
#![tactic(auto)]

#[cfg(test)]
mod replacing;
#[cfg(test)]
mod resolving;
#[cfg(test)]
mod splitting;
#[cfg(test)]
mod step_limits;
