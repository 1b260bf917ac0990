// Why orders are not carried out.
ghost use Rattle.std.specs.Prelude.{◌≡◌};
ghost use Rattle.orders.specs.Refusals.{order_refusal_number};

// Each case has its number in the table of refusals.
#[derive(Clone, Copy, Debug, PartialEq, Eq)]
pub enum OrderRefusal {
    // The line is no order.
    Unreadable = 19,
    // There are more bytes of orders than are read.
    TooLong = 20,
}

impl From<OrderRefusal> for u8 {
    ghost from_gives = { λ refusal number. number ≡ order_refusal_number refusal };

    fn from(refusal: OrderRefusal) -> u8 {
        refusal as u8
    }
}
