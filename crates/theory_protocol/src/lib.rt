// The protocol over a plain model of a cabinet: each call as its checks, its answer and its edits. Theory alone: there is no code here.
#![tactic(auto)]
