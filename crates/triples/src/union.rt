//! The better of two answers.
ghost use Rattle.std.specs.Prelude.{◌≡◌};
ghost use Rattle.triples.specs.Unions.{least};

/// The lesser of two, the first where they are equal, or the only one there is.
pub fn least_of<T: Ord + Copy>(one: Option<T>, other: Option<T>) -> Option<T>
    ensures { result ≡ least T.Ord.cmp one other }
{
    match (one, other) {
        (Some(t), Some(u)) => if u.cmp(&t).is_lt() { other } else { one },
        _ => one.or(other),
    }
}
