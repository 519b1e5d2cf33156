//! Lemmas about tests, options, lists and numbers alone, beside those of std: no code, and no definition of ours.
#![tactic(auto)]
