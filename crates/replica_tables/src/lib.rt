//! Public calls of the crates of one replica and of its rebuild, with ample memory.
#![tactic(auto)]

#[cfg(test)]
mod compare;
#[cfg(test)]
mod layers;
#[cfg(test)]
mod node;
#[cfg(test)]
mod page;
#[cfg(test)]
mod pages;
#[cfg(test)]
mod read_index;
#[cfg(test)]
mod rebuild;
