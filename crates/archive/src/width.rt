ghost use Rattle.std.specs.Prelude.{◌≡◌};
ghost use Rattle.archive.specs.Widths.{joined};

// The bytes of two kinds together, 17 for anything above 16.
pub(crate) const fn joined(left: usize, right: usize) -> usize
    ensures { result ≡ joined left right }
{
    if left > 16 || right > 16 || left + right > 16 {
        17
    } else {
        left + right
    }
}
