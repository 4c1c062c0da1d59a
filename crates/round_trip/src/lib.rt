// Theorems of the writer (READING, 'The writer'), and no code. What is written of an accepted reading's tree, read
// again, gives that tree: specs/RoundTrip. How long it can be: specs/Bound. Which trees readings make, as far as the
// writer rests on it: specs/Writable.
// Below it stand what an input means (meaning), the writer's definition (ser), the definitions of a reading (reading)
// and what these stand on.
#![tactic(auto)]
