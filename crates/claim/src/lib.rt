// Demand 3, the claim about any list of calls, and 01's starred cases. It has no code. specs/Document.antt says what the document gives for a
// list of calls, specs/Calls.antt what a list of calls is (specs/Zeroed.antt: one may begin with memory that is all zeros), specs/Claim.antt
// what is claimed of it, specs/Controls.antt that it speaks of something, and specs/Starred.antt has the cases; proofs/ proves them.
#![tactic(auto)]

mod cases; // the starred cases
