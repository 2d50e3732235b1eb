//! Rows of what a client of one served replica is answered, with bytes of the frame format.
#![tactic(auto)]

#[cfg(test)]
mod answers;
#[cfg(test)]
mod calls;
#[cfg(test)]
mod cuts;
#[cfg(test)]
mod faults;
#[cfg(test)]
mod frame;
#[cfg(test)]
mod inputs;
#[cfg(test)]
mod served;
