//! A law of images.
ghost use Rattle.mk_disk.specs.Image.{EachImageCounts};

/// Whatever a crash may leave by the plain words, byte by byte, is among the images that the trait's clauses speak of:
/// any bytes in each range that was written since the last sync and past the old end, all other bytes as they were, and
/// any length from that of the durable bytes to the greatest since.
pub fn each_image_counts()
    ensures { EachImageCounts }
{}
