//! What the laws of all parts share: the lists that a part's turns make, the one induction over turns up to the first letter
//! that isn't fit, and laws of lists and tests.
//!
//! There is no function: the crates above prove the laws of each part by the lemmas in `proofs/`.
#![tactic(auto)]
