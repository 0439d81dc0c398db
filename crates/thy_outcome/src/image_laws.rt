//! Laws of files, each the contract of a function that does nothing.
ghost use Rattle.thy_outcome.specs.Own.{FileIsOfOne, ImageIsOfOne};
ghost use Rattle.thy_outcome.specs.Saved.{CheckpointCanBegin, FileIsImage};

/// The blocks of a file with a checkpoint, with zeros after them up to the length of an image, mean that checkpoint,
/// also under a higher ceiling.
pub fn a_file_is_an_image()
    ensures { FileIsImage }
{}

/// A run can begin with the state of a checkpoint that a file of bytes has.
pub fn a_checkpoint_can_begin_a_run()
    ensures { CheckpointCanBegin }
{}

/// An image that has a checkpoint by one scheme, number of harts and geometry has none by another scheme, for another
/// number of harts or for another geometry; and so a file.
pub fn an_image_is_of_one_scheme()
    ensures image { ImageIsOfOne }
    ensures file { FileIsOfOne }
{}
