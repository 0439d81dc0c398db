//! Which images a power cut can leave of a device.
ghost use Rattle.thy_sweep.specs.Images.{ListCrashes, ListEachOnce, CountImages};

/// The images that are listed for a device (`crash_images`) are those that a cut can leave of it: no other, each once, and all of
/// them if its blocks land whole. Their number is the product, over all places, of how many blocks a cut can leave there.
pub fn every_image_of_a_cut_is_listed()
    ensures crashes { ListCrashes }
    ensures once { ListEachOnce }
    ensures count { CountImages }
{}
