//! What seek and leap answer, by going over a whole list of plain numbers.
ghost use Rattle.std.specs.List.{filter, reduce};
ghost use Rattle.std.specs.Prelude.{◌≡◌, map, min};
ghost use Rattle.store_cases.specs.Plain.{from, lesser, matched, number_of, reaches, with_one_more};

use triples::position::Position;

/// Each number of the triple is the selector's at its place, or the selector's is 0.
fn fits(triple: (u32, u32, u32), selector: (u32, u32, u32)) -> bool
    ensures { result ≡ matched selector triple }
{
    (selector.0 == 0 || selector.0 == triple.0)
        && (selector.1 == 0 || selector.1 == triple.1)
        && (selector.2 == 0 || selector.2 == triple.2)
}

/// The number at the position.
fn number_at(triple: (u32, u32, u32), position: Position) -> u32
    ensures { result ≡ number_of position triple }
{
    match position {
        Position::Subject => triple.0,
        Position::Property => triple.1,
        Position::Object => triple.2,
    }
}

/// The best so far, or the triple if it comes before that one or is the first.
fn better(best: Option<(u32, u32, u32)>, triple: (u32, u32, u32)) -> Option<(u32, u32, u32)>
    ensures { result ≡ with_one_more best triple }
{
    match best {
        Some(best) if best <= triple => Some(best),
        _ => Some(triple),
    }
}

/// The least triple of the list that matches and is not below the start; none where there is none.
pub fn least(
    list: &[(u32, u32, u32)],
    selector: (u32, u32, u32),
    start: (u32, u32, u32),
) -> Option<(u32, u32, u32)>
    ensures { result ≡ reduce lesser (filter (reaches selector start) list.now) }
{
    list.iter()
        .copied()
        .filter(|triple| fits(*triple, selector) && start <= *triple)
        .fold(None, better)
}

/// The smallest number from the bound on at the position of a triple of the list that matches; none where
/// there is none.
pub fn smallest(
    list: &[(u32, u32, u32)],
    position: Position,
    selector: (u32, u32, u32),
    bound: u32,
) -> Option<u32>
    ensures { result ≡ reduce min (filter (from bound) (map (number_of position)
        (filter (matched selector) list.now))) }
{
    list.iter()
        .copied()
        .filter(|triple| fits(*triple, selector))
        .map(|triple| number_at(triple, position))
        .filter(|number| bound <= *number)
        .min()
}
