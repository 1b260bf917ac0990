// The lines of a text of orders.
ghost use Rattle.std.specs.Prelude.{◌≡◌, ◌==◌, ◌<◌, [], ◌∷◌, length, MatchOption, position};
ghost use Rattle.orders.specs.Lines.{lines_of, admission, LinesAreReadBack};

use super::refusal::OrderRefusal;

// More bytes of orders are refused as a whole.
pub const MOST_BYTES: usize = 4096;

pub fn admit(text: &[u8]) -> Result<(), OrderRefusal>
    ensures { result ≡ admission text.now }
{
    if text.len() <= MOST_BYTES {
        Ok(())
    } else {
        Err(OrderRefusal::TooLong)
    }
}

// Where the first newline is.
fn line_end(text: &[u8]) -> Option<usize>
    ensures { result ≡ position (λ b. b == 10) text.now }
{
    text.iter().position(|b| *b == b'\n')
}

// The first line of a text without its newline, and the text behind that; none at the end of the text.
#[tactic(auto, using(crate::proofs::Split::line_and_rest, crate::proofs::Split::one_line, crate::proofs::Split::lines_are_read_back))]
pub fn next_line(text: &[u8]) -> Option<(&[u8], &[u8])>
    ensures line { MatchOption result (lines_of text.now ≡ []) (λ p. lines_of text.now ≡ p.0.now ∷ lines_of p.1.now) }
    ensures shorter { MatchOption result (length text.now ≡ 0) (λ p. length p.1.now < length text.now) }
    ensures back { LinesAreReadBack }
{
    if text.is_empty() {
        return None;
    }
    match line_end(text) {
        Some(end) => Some((&text[..end], &text[end + 1..])),
        None => Some((text, &[])),
    }
}
