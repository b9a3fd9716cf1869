// Laws of numbers, values and lists that the crates above share; there is no code.

#![tactic(auto)]
