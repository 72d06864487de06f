// What the sum of the parts says of the sum of the whole.

ghost use Rattle.std.specs.Prelude.{◌≡◌, ℕ, ◌%◌, ◌<◌, List, ◌++◌, length, All};
ghost use Rattle.v6_sum.specs.InternetChecksum.{words_of, ones_add, ones_sum};

/// The sum of two parts that are joined at an even place is the ones' complement sum of their sums, so
/// a checksum may be computed part by part (RFC 1071 section 2 (A)). The function does nothing: its
/// contract is the law.
pub fn sum_of_joined_parts()
    ensures { (front back : List ℕ) → All (λ octet. octet < 256) front → All (λ octet. octet < 256) back
        → length front % 2 ≡ 0
        → ones_sum (words_of (front ++ back))
        ≡ ones_add (ones_sum (words_of front)) (ones_sum (words_of back)) }
{}
