//! Tests of runs: outcomes, what is told of them, systems, the line of progress, and the public names.
#![tactic(auto)]

#[cfg(test)]
mod cuts;
pub mod front_door;
#[cfg(test)]
mod left_lines;
#[cfg(test)]
mod listed;
#[cfg(test)]
mod objects;
#[cfg(test)]
mod outcomes;
#[cfg(test)]
mod progress;
#[cfg(test)]
mod readme;
#[cfg(test)]
mod rooms;
#[cfg(test)]
mod shown;
pub mod surface;
#[cfg(test)]
mod systems;
