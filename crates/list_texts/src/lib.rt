// Theory alone: what the lines of a text do one after the other.
#![tactic(auto)]
