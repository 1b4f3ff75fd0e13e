// An attribute of a pair of a source and a pixel format.
use names::{Attribute, PixelFormat, Source};

#[derive(Clone, Copy, PartialEq, Eq)]
pub struct Point {
    pub source: Source,
    pub format: PixelFormat,
    pub attribute: Attribute,
}
