// What the engine promises of all that a caller can call: demand 1 in one theorem, and demands 2 and 3 of what a text runs. Theory alone: there is no code here.
#![tactic(auto)]
