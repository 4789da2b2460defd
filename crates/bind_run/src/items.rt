ghost use Rattle.std.specs.Prelude.{◌≡◌, [], ◌∷◌, MatchOption};

/// The first of items, and those behind it.
pub(crate) fn first<T>(items: &[T]) -> Option<(&T, &[T])>
    ensures { MatchOption result (items.entry.now ≡ []) (λ p. items.entry.now ≡ p.0.now ∷ p.1.now) }
{
    match items {
        [item, rest @ ..] => Some((item, rest)),
        [] => None,
    }
}
