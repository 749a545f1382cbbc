// What follows from the form of escaped lines, for all of them.
ghost use Rattle.std.specs.Prelude.{◌≡◌, ◌⊎◌, ℕ, List, ◌∷◌, ◌++◌};
ghost use Rattle.line_escape.specs.Escaping.{escaped};
ghost use Rattle.line_escape.specs.Unescaping.{AppendsMeaning, HasNoNewline, IsBadPlace, Means};

/// A line means one list of bytes at most.
pub fn one_meaning()
    ensures { (line a b : List ℕ) → Means line a → Means line b → a ≡ b }
{}

/// A line with a bad place means nothing, and has no other bad place.
pub fn one_refusal()
    ensures nothing { (line bytes : List ℕ) (at : ℕ) → IsBadPlace line at → Means line bytes → ⊥ }
    ensures first { (line : List ℕ) (i j : ℕ) → IsBadPlace line i → IsBadPlace line j → i ≡ j }
{}

/// A line without a newline means some bytes or has a bad place.
pub fn every_line()
    ensures { (line : List ℕ) → HasNoNewline line
        → ((bytes : List ℕ) × Means line bytes) ⊎ ((at : ℕ) × IsBadPlace line at) }
{}

/// What `escape` writes is a line, and `unescape` reads the bytes back from it.
pub fn reads_back()
    ensures whole { (bytes : List ℕ) → HasNoNewline (escaped bytes) }
    ensures means { (bytes : List ℕ) → Means (escaped bytes) bytes }
    ensures back { (bytes old new : List ℕ) → AppendsMeaning (escaped bytes) old new → new ≡ old ++ bytes }
    ensures accepted { (bytes : List ℕ) (at : ℕ) → IsBadPlace (escaped bytes) at → ⊥ }
{}

/// No escaped line with its newline begins another, so a line is found again whatever follows it.
pub fn no_line_begins_another()
    ensures { (a b x y : List ℕ) → escaped a ++ 10 ∷ x ≡ escaped b ++ 10 ∷ y → (a ≡ b) × (x ≡ y) }
{}
