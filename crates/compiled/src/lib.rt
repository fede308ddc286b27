// The table that content models are turned into, state by state and rule by rule, and that it is right: it accepts the binary form of a
// document exactly if the models derive that document, and it passes 2 to 9. No function stands here.
#![tactic(auto)]
