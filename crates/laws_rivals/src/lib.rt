// The third demand as a theorem over the definitions of `sched`. Theory only, in specs/.

#![tactic(auto)]
