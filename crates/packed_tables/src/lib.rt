//! Tables of public calls of packed lists and entries, with ample memory.
#![tactic(auto)]

#[cfg(test)]
mod entries;
#[cfg(test)]
mod lists;
#[cfg(test)]
mod made;
#[cfg(test)]
mod segments;
