// Laws about the library's account of IEEE 754. There is no code here.

#![tactic(auto)]
