// What the plan's definitions come to, that its promises determine the outcome, and its worked cases. Laws; no function.
#![tactic(auto)]
