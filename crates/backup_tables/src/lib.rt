//! Tables of public calls of the crates of backups, over targets in memory, with values from outside and with ample memory.
#![tactic(auto)]

#[cfg(test)]
mod blocks;
#[cfg(test)]
mod cfgs;
#[cfg(test)]
mod copies;
#[cfg(test)]
mod failing;
#[cfg(test)]
mod made;
#[cfg(test)]
mod names;
#[cfg(test)]
mod wide;
