// 01's starred cases are proved of the definitions, in specs/ and proofs/. No code.
