// What an input means, apart from records and space: the rules that change the tree (reading's specs/Adding) and the
// run over the takings (reading's specs/Running) once more, on trees alone, without record numbers, offsets and
// charges. It has definitions and theorems, and no code.
// Clients cite specs/Meaning, and specs/Readings, which says that every reading leaves what its input means and is
// accepted where that fits. proofs/Along has the laws of rules at the end of some keys.
// Below it stand the definitions of a reading (reading) and what these stand on.
#![tactic(auto)]
