// The fields of a list of names, each read as a text and answered in three words (READING, 'Many names'). Definitions
// stand in specs/Names and specs/Answers; names and answers by their index in specs/Each; which ends fit, by theirs, in
// specs/Fits; and that names laid end to end are found again in specs/Laid.
// Below it stand the fields of a tree (fields), the refusals' numbers (refusals), a record's row (row) and laws.
#![tactic(auto)]

pub mod answers; // the answers of all names
pub mod names; // the names as they are lent
