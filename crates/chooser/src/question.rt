// What a chooser is asked.
use algebra::Sign;

// The degree of each axis, how often the box was halved along each, the depth of the box, which is the sum of these, and the signs of
// its patch. A chooser reads them and keeps none of them.
#[derive(Clone, Copy)]
pub struct Question<'d, 'h, 's> {
    pub degrees: &'d [u8],
    pub halvings: &'h [u8],
    pub depth: u32,
    pub signs: &'s [Sign],
}
