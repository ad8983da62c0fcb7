// Demands 1, 2 and 3 over whole lists of calls of the 16-card cabinet. Theory alone: there is no code here.
#![tactic(auto)]
