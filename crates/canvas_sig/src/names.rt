//! Comparison of members' names in few steps: most names differ in their length or their first
//! byte.

ghost use Rattle.std.specs.Prelude.{◌≡◌};
ghost use Rattle.std.specs.Ordering.{nat_cmp};
ghost use Rattle.std.specs.Cmp.Lexicographic.{slice_cmp};
ghost use Rattle.std.specs.Str.{bytes_eq};

use std::cmp::Ordering;

/// Compares two names.
#[inline(always)]
pub(crate) fn order_of(left: &str, right: &str) -> Ordering
    ensures { result ≡ slice_cmp nat_cmp left.now right.now }
{
    let (first, other) = (left.as_bytes(), right.as_bytes());
    if first.is_empty() || other.is_empty() || first[0] == other[0] {
        left.cmp(right)
    } else {
        first[0].cmp(&other[0])
    }
}

#[inline(always)]
pub(crate) fn are_same(left: &str, right: &str) -> bool
    ensures { result ≡ bytes_eq left.now right.now }
{
    left.len() == right.len() && left == right
}
