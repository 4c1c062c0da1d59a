// Bytes by name, texts as bytes and digits as numbers, for definitions and examples. It has no code: see specs/, where
// `ascii` (specs/Texts) is the bytes of a text, specs/Bytes names those that the rules turn on, and specs/Digits says
// which are digits and what number they write. Laws of digits are proofs/Digits.
// Below it stand laws.
#![tactic(auto)]
