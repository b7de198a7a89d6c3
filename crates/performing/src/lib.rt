// Performing statements one by one, and what that does to a case.
#![tactic(auto)]
