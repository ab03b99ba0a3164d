//! What writing a file does, as a law of the files that a store tells.
ghost use Rattle.pkg_world.specs.Writing.{WritingLaw, BlockedLaw};

/// A file that is written sets its path to the bytes, makes each path above it a folder and leaves every other
/// path. It is blocked exactly where the path is a folder, or a path above it is a file.
pub fn writing_sets_one_path()
    ensures sets { WritingLaw }
    ensures blocked { BlockedLaw }
{}
