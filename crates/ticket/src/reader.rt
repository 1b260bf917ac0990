// Bytes that are lent to be read, and where in them a ticket lies.
ghost use Rattle.std.specs.Prelude.{◌≤◌, length};

// The ticket starts at the origin and ends before the end; a file may hold more than this one ticket.
// Two plain numbers, and not the part of the bytes: a rule of the project has a file of several tickets read by moving them on and
// putting them back.
#[derive(Drop)]
pub struct Reader<'a> {
    pub(crate) bytes: &'a [u8],
    pub(crate) origin: usize,
    pub(crate) end: usize,
    ghost within: { (origin ≤ end) × (end ≤ length bytes.now) },
}
