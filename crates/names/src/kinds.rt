// The sources, pixel formats, attributes and value words of the task language, numbered from 1 in this order.

// Where the sheets come from.
#[derive(Clone, Copy, PartialEq, Eq, Debug)]
pub enum Source {
    Feeder,
    FeederFront,
    FeederRear,
    FlatBed,
    Planetary,
    Storage,
}

// How a pixel is stored.
#[derive(Clone, Copy, PartialEq, Eq, Debug)]
pub enum PixelFormat {
    Bw1,
    Gray8,
    Gray16,
    Rgb24,
    Rgb48,
}

// What can be set at a pair of a source and a pixel format.
#[derive(Clone, Copy, Debug, PartialEq, Eq)]
pub enum Attribute {
    Alarms,
    AlarmVolume,
    AutomaticDeskew,
    AutomaticSize,
    Barcodes,
    BitDepthReduction,
    Brightness,
    Compression,
    ContinuousScan,
    Contrast,
    Cropping,
    DiscardBlankImages,
    DoubleFeedDetection,
    DoubleFeedDetectionLength,
    DoubleFeedDetectionResponse,
    DoubleFeedDetectionSensitivity,
    FlipRotation,
    Height,
    ImageMerge,
    ImageMergeHeightThreshold,
    Invert,
    JpegQuality,
    Micr,
    Mirror,
    NoiseFilter,
    OverScan,
    NumberOfSheets,
    OffsetX,
    OffsetY,
    PatchCodes,
    Resolution,
    Rotation,
    SheetHandling,
    SheetSize,
    Threshold,
    UncalibratedImage,
    Width,
}

// A word that is the value of an attribute.
#[derive(Clone, Copy, PartialEq, Eq, Debug)]
pub enum Word {
    Off,
    On,
    Automatic,
    None,
    Group4,
    Jpeg,
    Dynamic,
    ErrorDiffusion,
    Thresholding,
    Maximum,
    Minimum,
    SheetSize,
    FrontAboveRear,
    FrontBelowRear,
    FrontLeftOfRear,
    FrontRightOfRear,
}

// The value of an attribute.
#[derive(Clone, Copy, Debug, Eq, PartialEq)]
pub enum Value {
    Word(Word),
    Number(i32),
}
