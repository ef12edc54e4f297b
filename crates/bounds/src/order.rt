//! How large the sets are that a bound looks at.
ghost use Rattle.bounds.specs.Orders.{OrderOf};

use strips::Denial;

/// Sets of one atom, or of one or two. Public calls take the number and refuse others: to take an order would ask more of their
/// callers.
#[derive(Clone, Copy, Debug, PartialEq, Eq)]
pub enum Order {
    One = 1,
    Two = 2,
}

/// The order of a number, 1 or 2.
impl TryFrom<usize> for Order {
    type Error = Denial;

    ghost try_from_gives = { OrderOf };

    fn try_from(number: usize) -> Result<Order, Denial> {
        match number {
            1 => Ok(Order::One),
            2 => Ok(Order::Two),
            _ => Err(Denial::OrderUnknown),
        }
    }
}
