//! How the packets of patterns lie to each other, in any header kind: code that rests on the four laws alone.
ghost use Rattle.std.specs.Prelude.{◌≡◌, true, Some};
ghost use Rattle.header.specs.Overlaps.{Lies, case_of, compared, Leaves, hits_each, made_each, met_each};

use crate::kind::HeaderKind;

/// How the packets that hit one pattern lie to those that hit another.
#[derive(Clone, Copy, PartialEq, Eq, Debug)]
pub enum Overlap {
    /// No packet hits both.
    Apart,
    /// The same packets hit both.
    Same,
    /// Every packet that hits the first hits the second, and some others do.
    Within,
    /// Every packet that hits the second hits the first, and some others do.
    Around,
    /// Some packets hit both, some the first alone and some the second alone.
    Partial,
}

impl Overlap {
    /// The case of two patterns that meet or do not, of which the second covers the first or does not (`inside`), and the first the second (`around`).
    fn of(meet: bool, inside: bool, around: bool) -> Overlap
        ensures { result ≡ case_of meet inside around }
    {
        match (meet, inside, around) {
            (false, _, _) => Overlap::Apart,
            (true, true, true) => Overlap::Same,
            (true, true, false) => Overlap::Within,
            (true, false, true) => Overlap::Around,
            (true, false, false) => Overlap::Partial,
        }
    }
}

/// How the packets of two patterns lie to each other.
pub fn compare<K: HeaderKind>(first: &K, second: &K) -> Overlap
    ensures is { result ≡ compared K.HeaderKind.kind first.now second.now }
    ensures lies { K.HeaderKind.kind.made first.now ≡ true → K.HeaderKind.kind.made second.now ≡ true → Lies (K.HeaderKind.kind.hit first.now) (K.HeaderKind.kind.hit second.now) result }
{
    Overlap::of(
        first.meet(second).is_some(),
        second.covers(first),
        first.covers(second),
    )
}

/// The pattern of the packets that hit all of the patterns, or none where there is no such packet.
pub fn meet_all<K: HeaderKind>(patterns: &[K]) -> Option<K>
    ensures is { result ≡ met_each K.HeaderKind.kind (Some K.HeaderKind.kind.all) patterns.now }
    ensures leaves { made_each K.HeaderKind.kind patterns.now ≡ true → Leaves K.HeaderKind.kind (hits_each K.HeaderKind.kind patterns.now) result }
{
    patterns
        .iter()
        .try_fold(K::all(), |met, pattern| met.meet(pattern))
}
