//! Lists from their front.
ghost use Rattle.std.specs.Prelude.{◌≡◌, [], ◌∷◌, MatchOption};

/// The first of a list, and the others.
pub fn split<'a, T>(list: &'a [T]) -> Option<(&'a T, &'a [T])>
    ensures { MatchOption result (list.now ≡ []) (λ p. list.now ≡ p.0.now ∷ p.1.now) }
{
    match list {
        [first, more @ ..] => Some((first, more)),
        [] => None,
    }
}
