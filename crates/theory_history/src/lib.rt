// The theory of histories: changes, precedence, dependencies, cuts and the recovery line, for any number of cards. Theory alone: there is no code here.
#![tactic(auto)]
