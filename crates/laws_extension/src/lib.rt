// Step 3: which slots it wakes, what that costs, and a cheap test of whether a slot helps. Theory only, in specs/.

#![tactic(auto)]
