// The product of a sender and a deterministic factorized receiver: trees give pairs of a sender's state and the receiver's base state.
// A set of pairs that is closed has every pair that a tree gives; so it decides inclusion, and a pair that fails gives a witness.
// No function stands here.
#![tactic(auto)]
