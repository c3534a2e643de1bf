//! The front of a list.

ghost use Rattle.std.specs.Prelude.{◌≡◌, take};

/// The first of these, at most so many.
#[tactic(auto, using(std::proofs::lemmas::List::take_min))]
pub(crate) fn first_of<T>(items: &[T], most: usize) -> &[T]
    ensures { result.now ≡ take most items.entry.now }
{
    &items[..most.min(items.len())]
}
