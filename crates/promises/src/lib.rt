// What may be promised of the library, as theorems over the definitions that its contracts cite.

#![tactic(auto)]
