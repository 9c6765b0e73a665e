// Earliest deadline first: what it serves, and which slots help it. Theory only, in specs/.

#![tactic(auto)]
