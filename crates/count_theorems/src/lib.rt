// What the services that count tell of each other and of the stepwise listing. Theorems alone.
#![tactic(auto)]
