// The kinds of a value and of a key (READING, 'Records'), and the numbers that stand for them in a record.
ghost use Rattle.std.specs.Prelude.{◌≡◌};
ghost use Rattle.row.specs.Kinds.{kind_number, KindOf, key_kind_number, KeyKindOf};

// The kinds of a value.
#[derive(Clone, Copy, PartialEq, Eq)]
pub enum Kind {
    Uninitialized = 0,
    Map = 1,
    Sequence = 2,
    String = 3,
    Null = 4,
    NoValue = 5,
}

// The kinds of a key. A value without one has the kind None.
#[derive(Clone, Copy, PartialEq, Eq)]
pub enum KeyKind {
    None = 0,
    Int = 1,
    String = 2,
}

// A number that stands for no kind.
#[derive(Clone, Copy, PartialEq, Eq)]
pub struct UnknownKind(pub u32);

impl From<Kind> for u32 {
    ghost from_gives = { λ kind number. number ≡ kind_number kind };

    fn from(kind: Kind) -> u32 {
        kind as u32
    }
}

impl TryFrom<u32> for Kind {
    type Error = UnknownKind;

    ghost try_from_gives = { KindOf };

    fn try_from(number: u32) -> Result<Kind, UnknownKind> {
        match number {
            0 => Ok(Kind::Uninitialized),
            1 => Ok(Kind::Map),
            2 => Ok(Kind::Sequence),
            3 => Ok(Kind::String),
            4 => Ok(Kind::Null),
            5 => Ok(Kind::NoValue),
            _ => Err(UnknownKind(number)),
        }
    }
}

impl From<KeyKind> for u32 {
    ghost from_gives = { λ kind number. number ≡ key_kind_number kind };

    fn from(kind: KeyKind) -> u32 {
        kind as u32
    }
}

impl TryFrom<u32> for KeyKind {
    type Error = UnknownKind;

    ghost try_from_gives = { KeyKindOf };

    fn try_from(number: u32) -> Result<KeyKind, UnknownKind> {
        match number {
            0 => Ok(KeyKind::None),
            1 => Ok(KeyKind::Int),
            2 => Ok(KeyKind::String),
            _ => Err(UnknownKind(number)),
        }
    }
}
