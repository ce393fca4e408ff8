//! Whether a list ascends strictly.
ghost use Rattle.triples.specs.Ascent.{Ascends, Falls};
ghost use Rattle.std.specs.Ordering.{is_ge};
ghost use Rattle.std.specs.Prelude.{◌≡◌, ◌-◌, ◌<◌, length, slice_index_or, MatchOption};

/// The place of an element that is not above the one before it; none where the elements ascend strictly.
pub fn fall<T: Ord>(items: &[T]) -> Option<usize>
    ensures { MatchOption result (Ascends (λ x y r. r ≡ T.Ord.cmp x y) items.now)
        (Falls (λ x y r. r ≡ T.Ord.cmp x y) items.now) }
{
    let (_, rest) = items.split_first()?;
    items
        .iter()
        .zip(rest)
        .position(|(item, next)| item.cmp(next).is_ge())
        .map(|i| i + 1)
}
