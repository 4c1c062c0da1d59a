// What a query string means: docs/READING.md as definitions (specs/) and the theorems over them (proofs/). It has
// no code but what a reading answers, in Rust and for C, what a call makes of it that is refused later, and the kinds
// of a single value. The headline is specs/Reading; what is proved of it stands in specs/Answers, Limits, Placed,
// TreeHeld, ReadBack, Counts, Shape, UniqueKeys, Space, Fitting, Joining, Growth, Starred and Others, and of what
// growth rules out in specs/Lost.
// Below it stand the settings (config), the key rule (key), decoding (decode), the refusals (refusals), a record's row
// (row), bytes by name (ascii) and laws.
#![tactic(auto)]

ghost use Rattle.std.specs.Prelude.{◌≡◌};
ghost use Rattle.reading.specs.Reading.{accepts, refuses, refused_after};
ghost use Rattle.reading.specs.Results.{answer_of};

use refusals::Refusal;

// What an accepted reading uses of what it was lent: so many records, and so many bytes of text.
#[derive(Clone, Copy, PartialEq, Eq)]
pub struct Used {
    pub records: u32,
    pub bytes: u32,
}

// Why a reading is refused, and the place that it had come to.
#[derive(Clone, Copy, PartialEq, Eq)]
pub struct Refused {
    pub refusal: Refusal,
    pub place: u32,
}

// What a reading answers (READING, 'Records'): its number, which is 0 if it is accepted; the place of a refusal, else
// 0; and how many records and bytes of text it uses, none if it is refused. C gets it as it stands.
// Stays numbers, 0 for no refusal: C has this struct (include/qs.h); in Rattle a reading answers a Result.
#[repr(C)]
#[derive(Clone, Copy, PartialEq, Eq)]
pub struct Reading {
    pub number: u32,
    pub place: u32,
    pub records: u32,
    pub bytes: u32,
}

impl From<Used> for Reading {
    ghost from_gives = { λ used reading. reading ≡ accepts used.records used.bytes };

    fn from(used: Used) -> Reading {
        Reading {
            number: 0,
            place: 0,
            records: used.records,
            bytes: used.bytes,
        }
    }
}

impl From<Refused> for Reading {
    ghost from_gives = { λ refused reading. reading ≡ refuses refused.refusal refused.place };

    fn from(refused: Refused) -> Reading {
        Reading {
            number: refused.refusal.into(),
            place: refused.place,
            records: 0,
            bytes: 0,
        }
    }
}

impl From<Result<Used, Refused>> for Reading {
    ghost from_gives = { λ answer reading. reading ≡ answer_of answer };

    fn from(answer: Result<Used, Refused>) -> Reading {
        match answer {
            Ok(used) => used.into(),
            Err(refused) => refused.into(),
        }
    }
}

impl Reading {
    // The answer of a call that is refused after its reading was accepted, with this answer, whose counts stay.
    pub fn refused_by(self, refusal: Refusal) -> Reading
        ensures { result ≡ refused_after self refusal }
    {
        Reading {
            number: refusal.into(),
            place: 0,
            ..self
        }
    }
}

// The kind of a single value (READING, 'Growth') that is added to a tree; a String is a raw segment, which stands
// beside it, decoded.
#[derive(Clone, Copy, PartialEq, Eq)]
pub enum LeafKind {
    Null,
    NoValue,
    String,
}
