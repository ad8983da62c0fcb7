// Theory alone: the plans of the calls over the core of a cabinet, and what the checks of an accepted call show.
#![tactic(auto)]
