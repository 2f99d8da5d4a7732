// The laws of XOR stand in specs/. There is no code here.
#![tactic(auto)]
