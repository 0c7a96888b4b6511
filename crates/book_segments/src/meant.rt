//! The law above the number that a sequence field means.
ghost use Rattle.std.specs.Prelude.{◌≡◌, ℕ, ◌^◌, ◌<◌, ℤ};
ghost use Rattle.book_segments.specs.Meant.{meant, IsNearest, Tells};

/// A sequence field means one integer near the expected number: the only one with the field's
/// remainder modulo 2^32 that lies from 2^31 below to below 2^31 above it. `meant` answers that
/// integer, or that it is below 0 (RFC 5925, section 6.2).
pub fn meant_is_nearest()
    ensures some { (seq expected : ℕ) → seq < 2 ^ 32 → (n : ℤ) × IsNearest seq expected n }
    ensures only { (seq expected : ℕ) (m n : ℤ) → IsNearest seq expected m → IsNearest seq expected n → m ≡ n }
    ensures told { (seq expected : ℕ) (n : ℤ) → seq < 2 ^ 32 → IsNearest seq expected n → Tells (meant seq expected) n }
{}
