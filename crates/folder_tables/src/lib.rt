//! Tables of public calls of the crates of a replica's folder, with values from outside and with ample memory.
#![tactic(auto)]

#[cfg(test)]
mod fixed;
#[cfg(test)]
mod folders;
#[cfg(test)]
mod hollow;
#[cfg(test)]
mod maps;
#[cfg(test)]
mod metas;
#[cfg(test)]
mod opened;
#[cfg(test)]
mod refusals;
#[cfg(test)]
mod replica;
#[cfg(test)]
mod saved;
#[cfg(test)]
mod shelves;
#[cfg(test)]
mod told;
