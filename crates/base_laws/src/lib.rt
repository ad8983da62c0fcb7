// Laws of tests, numbers and lists that the other crates cite. Theory alone: there is no code here.
#![tactic(auto)]
