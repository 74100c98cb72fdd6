// Laws about the format's definitions that more than one crate needs. All of it is in specs/.
#![tactic(auto)]
