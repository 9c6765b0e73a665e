// Laws of the least skeleton: no code, all of it stands in specs/.

#![tactic(auto)]
