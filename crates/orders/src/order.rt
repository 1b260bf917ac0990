// One order, a line without its newline: a letter, and behind two of them a number.
ghost use Rattle.std.specs.Prelude.{◌≡◌, ◌≤◌, length};
ghost use Rattle.orders.specs.Orders.{digits_value, number_of, call_of, OrdersAreExact, OrdersAreReadBack};

use search::Call;

// The largest number of an order; five digits can write larger ones.
const LARGEST: u32 = 65535;

// The number that few enough digits write.
fn digits(text: &[u8]) -> Option<u32>
    requires { length text.now ≤ 5 }
    ensures { result ≡ digits_value 0 text.now }
{
    let mut value = 0;
    for b in text {
        value = value * 10 + char::from(*b).to_digit(10)?;
    }
    Some(value)
}

// What stands behind the letter: one space, and one to five digits of a number up to 65,535.
fn number(text: &[u8]) -> Option<u32>
    ensures { result ≡ number_of text.now }
{
    match text {
        [b' ', figures @ ..] if (1..=5).contains(&figures.len()) => {
            digits(figures).filter(|n| *n <= LARGEST)
        }
        _ => None,
    }
}

// The call that an order asks for; none if the line is unreadable.
#[tactic(auto, using(crate::proofs::Exact::orders_are_exact, crate::proofs::ReadBack::orders_are_read_back))]
pub fn call(line: &[u8]) -> Option<Call>
    ensures meaning { result ≡ call_of line.now }
    ensures exact { OrdersAreExact }
    ensures back { OrdersAreReadBack }
{
    let (first, rest) = line.split_first()?;
    match char::from(*first) {
        'r' => number(rest).map(Call::Run),
        'd' => number(rest).map(Call::Deepen),
        'v' => rest.is_empty().then_some(Call::Verdict),
        'p' => rest.is_empty().then_some(Call::Point),
        _ => None,
    }
}
