// The numbers of a ticket's patches as text.
ghost use Rattle.std.specs.Prelude.{Some};
ghost use Rattle.page.specs.Text.{numbers_text, sizes_text};

use number::Drifting;
use std::fmt::{Display, Formatter, Result, Write};
use ticket::Sizes;

// The numbers of a patch in their order, as `0, -20, 10`.
#[derive(Drop)]
pub struct Numbers<'a>(pub &'a [Drifting]);

impl<'a> Display for Numbers<'a> {
    ghost output = { λ n. Some (numbers_text n.0.now) };

    fn fmt<W: Write>(&self, f: &mut Formatter<W>) -> Result {
        let Some((first, rest)) = self.0.split_first() else {
            return Ok(());
        };
        write!(f, "{first}")?;
        for number in rest {
            write!(f, ", {number}")?;
        }
        Ok(())
    }
}

// How many numbers a patch has and by what they are scaled, and how large they can be; the last line has no end.
#[derive(Clone, Copy)]
pub struct SizeLines(pub Sizes);

impl Display for SizeLines {
    ghost output = { λ s. Some (sizes_text s.0) };

    fn fmt<W: Write>(&self, f: &mut Formatter<W>) -> Result {
        let patch = self.0.patch;
        let scale = self.0.scale;
        let value = self.0.value;
        let drift = self.0.drift;
        write!(
            f,
            "numbers in a patch: {patch}, scaled by {scale}\nsizes: values {value}, drifts {drift}"
        )
    }
}
