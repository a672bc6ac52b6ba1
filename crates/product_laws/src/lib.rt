// What the products' definitions come to, that their promises determine the outcome, and their worked cases. Laws; no function.
#![tactic(auto)]
