// The shape of a patch along one axis.
ghost use Rattle.std.specs.Prelude.{◌≡◌};
ghost use Rattle.patch.specs.Shapes.{shaped};

use crate::layout::count;

// A patch is so many blocks, each of degree + 1 rows of `stride` numbers: `size` numbers in all.
#[derive(Clone, Copy, Debug, PartialEq, Eq)]
pub struct Shape {
    pub blocks: usize,
    pub degree: u8,
    pub stride: usize,
    pub size: usize,
}

impl Shape {
    // The shape along an axis, or none if there is no such axis or the patch is larger than a machine word tells.
    pub fn along(degrees: &[u8], axis: usize) -> Option<Shape>
        ensures { result ≡ shaped degrees.now axis }
    {
        let degree = *degrees.get(axis)?;
        let blocks = count(&degrees[..axis])?;
        let stride = count(&degrees[axis + 1..])?;
        // No third count: however many axes there are, each degree is looked at once.
        let block = stride.checked_mul(usize::from(degree) + 1)?;
        let size = blocks.checked_mul(block)?;
        Some(Shape {
            blocks,
            degree,
            stride,
            size,
        })
    }
}
