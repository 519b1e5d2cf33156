//! Tests of the crates for classes that stand over a platform: tables, loading, lookups, access and linking.
#![tactic(auto)]

#[cfg(test)]
mod access;
#[cfg(test)]
mod agreeing;
#[cfg(test)]
mod fields;
#[cfg(test)]
mod linking;
#[cfg(test)]
mod loading;
#[cfg(test)]
mod methods;
#[cfg(test)]
mod moved;
pub mod rows;
#[cfg(test)]
mod sides;
#[cfg(test)]
mod tables;
#[cfg(test)]
mod without_rows;
