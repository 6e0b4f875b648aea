//! Tests of disjoint sets, nets, subtrees, and of what bodies name and call.
#![tactic(auto)]

#[cfg(test)]
mod bodies;
#[cfg(test)]
mod one_bit;
#[cfg(test)]
mod sample;
#[cfg(test)]
mod sets;
#[cfg(test)]
mod subtrees;
