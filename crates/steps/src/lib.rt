// The steps of document 01 from a list to a table, and what is promised of a plan. Definitions and laws only, in specs/.

#![tactic(auto)]
