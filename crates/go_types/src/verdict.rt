//! What is known of a settled type.
ghost use Rattle.std.specs.Prelude.{◌≡◌, ℕ, ◌+◌, ◌&&◌, true, max};
ghost use Rattle.go_types.specs.Relations.{array_scalars};
ghost use Rattle.go_types.specs.Verdicts.{kept_count};

/// Whether the values of a type are comparable, and how many scalars it has, or 2^64 - 1 if it has
/// more.
#[derive(Clone, Copy, Debug)]
pub struct Verdict {
    comparable: bool,
    scalars: u64,
}

impl Verdict {
    /// That of a type which the shape alone tells all of.
    pub fn plain(comparable: bool) -> Verdict
        ensures comparable { result.comparable ≡ comparable }
        ensures scalars { result.scalars ≡ 1 }
    {
        Verdict {
            comparable,
            scalars: 1,
        }
    }

    /// That of no fields.
    pub fn no_fields() -> Verdict
        ensures comparable { result.comparable ≡ true }
        ensures scalars { result.scalars ≡ 0 }
    {
        Verdict {
            comparable: true,
            scalars: 0,
        }
    }

    /// That of these fields and one more.
    pub fn with(self, field: Verdict) -> Verdict
        ensures comparable { result.comparable ≡ (self.comparable && field.comparable) }
        ensures scalars { (n m : ℕ) → self.scalars ≡ kept_count n → field.scalars ≡ kept_count m → result.scalars ≡ kept_count (n + m) }
    {
        Verdict {
            comparable: self.comparable && field.comparable,
            scalars: self.scalars.saturating_add(field.scalars),
        }
    }

    /// That of a struct of these fields.
    pub fn of_struct(self) -> Verdict
        ensures comparable { result.comparable ≡ self.comparable }
        ensures scalars { (n : ℕ) → self.scalars ≡ kept_count n → result.scalars ≡ kept_count (max 1 n) }
    {
        Verdict {
            comparable: self.comparable,
            scalars: self.scalars.max(1),
        }
    }

    /// That of an array of this length, of this element.
    pub fn of_array(self, length: u32) -> Verdict
        ensures comparable { result.comparable ≡ self.comparable }
        ensures scalars { (n : ℕ) → self.scalars ≡ kept_count n → result.scalars ≡ kept_count (array_scalars length n) }
    {
        let length = u64::from(length);
        let scalars = if self.scalars == 0 {
            length
        } else {
            length.saturating_mul(self.scalars)
        };
        Verdict {
            comparable: self.comparable,
            scalars,
        }
    }

    /// Whether the values are comparable.
    pub fn comparable(&self) -> bool
        ensures { result ≡ self.now.comparable }
    {
        self.comparable
    }

    /// How many scalars there are, or 2^64 - 1.
    pub fn scalars(&self) -> u64
        ensures { result ≡ self.now.scalars }
    {
        self.scalars
    }
}
