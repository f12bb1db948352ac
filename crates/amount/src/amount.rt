ghost use Rattle.std.specs.Prelude.{◌≡◌};
ghost use Rattle.amount.specs.Arithmetic.{Ops, Laws};

// A kind of amount: what can be claimed, asked for, held and given back.
pub trait Amount: Copy {
    // zero, sum, difference and equality, as mathematics
    ghost ops: { Ops Self };

    fn zero() -> Self
        ensures { result ≡ ops.zero };

    // The sum, where it is defined.
    fn plus(self, other: Self) -> Option<Self>
        ensures { result ≡ ops.plus self other };

    // What is left of `self` without `part`, where that is a part of it.
    fn minus(self, part: Self) -> Option<Self>
        ensures { result ≡ ops.minus self part };

    // Whether both are the same amount.
    fn same(self, other: Self) -> bool
        ensures { result ≡ ops.equal self other };

    // the five laws of a sum, and what the difference and the equality are
    ghost lawful: { Laws ops };
}
