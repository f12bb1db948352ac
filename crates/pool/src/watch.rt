ghost use Rattle.std.specs.Prelude.{◌≡◌, ℕ, Bool};

// A set of mark numbers: those that a limit watches.
pub trait Watch: Copy {
    // the numbers in it
    ghost watched: { Self → ℕ → Bool };

    // Whether the mark number is in it.
    fn watches(&self, mark: u8) -> bool
        ensures { result ≡ watched self.now mark };
}
