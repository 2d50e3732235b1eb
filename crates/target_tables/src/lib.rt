//! Tables of public calls of targets, in memory and over a folder, with ample memory.
#![tactic(auto)]

#[cfg(test)]
mod folders;
#[cfg(test)]
mod links;
#[cfg(test)]
mod memory;
#[cfg(test)]
mod objects;
