// Theory alone: what a read-out that is accepted shows, and the cabinet that restarts from it.
#![tactic(auto)]
