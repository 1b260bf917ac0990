// Why numbers are not written to a slice.

#[derive(Clone, Copy, Debug, PartialEq, Eq)]
pub enum PatchRefusal {
    // The kind of number does not carry a drift of the ticket.
    Drift,
    // There is no such axis, or no machine word tells how large the patch is.
    Axis,
    // The slice is too short.
    Room,
    // A number may not grow by the degree.
    Growth,
}
