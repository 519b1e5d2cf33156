//! Tests of the crates by which the program meets the outside: names, texts, files and sinks, the words, and the gates.
#![tactic(auto)]

#[cfg(test)]
mod buffers;
#[cfg(test)]
mod gates;
#[cfg(test)]
mod puts;
#[cfg(test)]
mod texts;
#[cfg(test)]
mod trees;
#[cfg(test)]
mod words;
