//! Tests of what is made of captures: merged runs, reports, written files, what each command prints and returns; and of
//! the command line.
#![tactic(auto)]

#[cfg(test)]
mod checks;
#[cfg(test)]
mod classes;
#[cfg(test)]
mod commands;
#[cfg(test)]
mod failing;
#[cfg(test)]
mod file_lines;
#[cfg(test)]
mod files;
#[cfg(test)]
mod hex_vectors;
#[cfg(test)]
mod ipv6;
#[cfg(test)]
mod jobs;
#[cfg(test)]
mod json_lines;
#[cfg(test)]
mod left;
#[cfg(test)]
mod left_out;
#[cfg(test)]
mod merge;
#[cfg(test)]
mod networks;
#[cfg(test)]
mod report;
#[cfg(test)]
mod skipping;
#[cfg(test)]
mod steps;
#[cfg(test)]
mod top;
#[cfg(test)]
mod words;
#[cfg(test)]
mod write;
