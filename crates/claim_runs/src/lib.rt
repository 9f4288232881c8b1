// The claim, of the machine: any list of runs of the clock's routines gives what document 01 gives. It has no code: see specs/Runs.antt for
// what a list of runs is, specs/OnMachine.antt for what is said of it, and proofs/OnMachine.antt for the theorem.

#![tactic(auto)]
