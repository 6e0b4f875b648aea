//! Tests of `pm_io`: objects that fail, streams and files of the host, and texts that are read in pieces.
#![tactic(auto)]

#[cfg(test)]
mod fixtures;
#[cfg(test)]
mod halting;
#[cfg(test)]
mod host_files;
#[cfg(test)]
mod host_streams;
#[cfg(test)]
mod lines;
#[cfg(test)]
mod memory;
#[cfg(test)]
mod sure;
