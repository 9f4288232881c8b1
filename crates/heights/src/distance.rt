// The exact sum, and how far a height may lie from it: definitions and theorems, no code.
