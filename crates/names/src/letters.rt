// The letters of the 64 names, end to end: 6 sources, 5 pixel formats, 37 attributes, 16 value words.
// One table and one list of starts, so that one computed check over them shows the names of each list to be distinct.
pub const LETTERS: [u8; 665] =
    *b"feederfeederFrontfeederRearflatBedplanetarystoragebw1gray8gray16rgb24rgb48alarmsalarmVolumeautomaticDeskewautomaticSizebarcodesbitDepthReductionbrightnesscompressioncontinuousScancontrastcroppingdiscardBlankImagesdoubleFeedDetectiondoubleFeedDetectionLengthdoubleFeedDetectionResponsedoubleFeedDetectionSensitivityflipRotationheightimageMergeimageMergeHeightThresholdinvertjpegQualitymicrmirrornoiseFilteroverScannumberOfSheetsoffsetXoffsetYpatchCodesresolutionrotationsheetHandlingsheetSizethresholduncalibratedImagewidthoffonautomaticnonegroup4jpegdynamicerrorDiffusionthresholdingmaximumminimumsheetSizefrontAboveRearfrontBelowRearfrontLeftOfRearfrontRightOfRear";

// Where each name starts in the letters, and where the last one ends.
pub const STARTS: [u16; 65] = [
    0, 6, 17, 27, 34, 43, 50, 53, 58, 64, 69, 74, 80, 91, 106, 119, 127, 144, 154, 165, 179, 187,
    195, 213, 232, 257, 284, 314, 326, 332, 342, 367, 373, 384, 388, 394, 405, 413, 427, 434, 441,
    451, 461, 469, 482, 491, 500, 517, 522, 525, 527, 536, 540, 546, 550, 557, 571, 583, 590, 597,
    606, 620, 634, 649, 665,
];
