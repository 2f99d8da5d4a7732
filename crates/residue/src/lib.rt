// The laws of remainders stand in specs/. There is no code here.
#![tactic(auto)]
