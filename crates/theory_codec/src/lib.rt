// Document 01's sheets over the model of a cabinet, and the law that lists of calls ask of them. Theory alone: there is no code here.
#![tactic(auto)]
