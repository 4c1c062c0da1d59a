// The writer's definition (READING, 'The writer'): the input that is written of a tree. It has no code; who writes it
// stands above (writer).
// Clients cite `written` (specs/Writing), over the bytes of keys and values (specs/Escaping). specs/Examples has a case
// for each rule, specs/Others what doesn't come back; proofs/Reading has how what is written is read.
// Below it stand the definitions of a reading (reading), the key rule (key), the settings (config), decimal and hex
// (output), bytes by name (ascii) and laws.
#![tactic(auto)]
