// What is promised, on one page: see specs/Promises.antt. No functions.
#![tactic(auto)]
