// The receiver's table as a deterministic factorized automaton: what refusals 7, 8 and 9 look for. No function stands here.
#![tactic(auto)]
