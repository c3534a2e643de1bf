//! The position of a call in an order.

ghost use Rattle.std.specs.Prelude.{◌≡◌, ◌<◌, IfNone, IfSome, Some, length, slice_get, Contains};

/// The least position at which an order has this number.
pub(crate) fn place_of(order: &[u32], number: u32) -> Option<usize>
    ensures there { IfSome result (λ place. slice_get order.now place ≡ Some number) }
    ensures within { IfSome result (λ place. place < length order.now) }
    ensures absent { IfNone result (¬ (Contains order.now number)) }
{
    for (place, other) in order.iter().enumerate() {
        if *other == number {
            return Some(place);
        }
    }
    None
}
