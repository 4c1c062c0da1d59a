// Lent slices made zero: what a reading doesn't use, all of them after a refusal, and that of a list.
#![tactic(auto)]

ghost use Rattle.std.specs.Prelude.{◌≡◌, length, replicate};

// A type with a zero, of which each copy is the zero again.
pub trait Zero: Copy {
    ghost ZERO: { Self };

    const ZERO: Self;

    ghost infallible: { Self.is_infallible ZERO };

    ghost copies: { (x : Self) → Self.is_clone ZERO x → x ≡ ZERO };
}

impl Zero for u8 {
    ghost ZERO = { 0 };

    const ZERO: u8 = 0;

    ghost infallible = { tt };

    ghost copies = { λ x same. same };
}

impl Zero for u32 {
    ghost ZERO = { 0 };

    const ZERO: u32 = 0;

    ghost infallible = { tt };

    ghost copies = { λ x same. same };
}

// Makes every word or every byte zero.
pub fn clear<T: Zero>(items: &mut [T])
    ensures { items.new ≡ replicate (length items.old) T.ZERO }
{
    items.fill(T::ZERO);
}
