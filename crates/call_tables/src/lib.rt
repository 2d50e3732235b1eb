//! Tables of public calls of the lower crates, with values from outside and with ample memory.
#![tactic(auto)]

#[cfg(test)]
mod commands;
#[cfg(test)]
mod digests;
#[cfg(test)]
mod frames;
#[cfg(test)]
mod journal;
#[cfg(test)]
mod outside;
#[cfg(test)]
mod streams;
#[cfg(test)]
mod told;
#[cfg(test)]
mod turns;
#[cfg(test)]
mod units;
#[cfg(test)]
mod words;
