// Worked plans and tables, computed by the definitions of `steps`. Closed cases only, in specs/.

#![tactic(auto)]
