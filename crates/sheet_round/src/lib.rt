// The round trip of a sheet by value, over what its writer and the reader of one sheet answer. Theory alone: there is no code here.
#![tactic(auto)]
