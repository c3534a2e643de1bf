//! What is read is spelled so, and what is spelled so is read, whatever follows.

ghost use Rattle.std.specs.Prelude.{◌≡◌, ℕ, ◌<◌, ◌^◌, ◌++◌, length, List, Ok};
ghost use Rattle.std.specs.Int.{w32, w64, to_le_bytes};
ghost use Rattle.records.specs.Reading.{number_at, front_at, tag_at};
ghost use Rattle.records.specs.Exact.{AreBytes, ReadsExactly, Takes};

/// Single fields are read exactly.
pub fn fields_are_read_exactly()
    ensures u32 { ReadsExactly (number_at w32) (to_le_bytes w32) (λ n. n < 2 ^ 32) }
    ensures u64 { ReadsExactly (number_at w64) (to_le_bytes w64) (λ n. n < 2 ^ 64) }
    ensures front { (size : ℕ) → ReadsExactly (front_at size) (λ bytes. bytes) (λ bytes. (length bytes ≡ size) × AreBytes bytes) }
    ensures tag_read { (tag : ℕ) (bytes rest : List ℕ) → AreBytes bytes → tag_at tag bytes ≡ Ok rest → Takes bytes (to_le_bytes w32 tag) rest }
    ensures tag_again { (tag : ℕ) (rest : List ℕ) → tag < 2 ^ 32 → tag_at tag (to_le_bytes w32 tag ++ rest) ≡ Ok rest }
{}
