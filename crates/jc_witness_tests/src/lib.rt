//! Tests of witnesses and of closed acts: what is planned for the changes of small releases, and which seats have to be asked.
#![tactic(auto)]

#[cfg(test)]
mod changes;
#[cfg(test)]
mod other_side;
#[cfg(test)]
mod releases;
#[cfg(test)]
mod seats;
