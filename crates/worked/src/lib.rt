// The worked examples that are proved of the definitions, by one statement over a single list. No function stands here.
#![tactic(auto)]
