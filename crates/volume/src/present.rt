// An open volume.
use geometry::Geometry;

// What a volume keeps in mind from open to close.
#[derive(Clone, Copy)]
pub(crate) struct Present {
    pub(crate) geometry: Geometry,
    // The root of the contents as they are now.
    pub(crate) root: [u8; 32],
    // Whether a slip is out.
    pub(crate) slip_out: bool,
}
