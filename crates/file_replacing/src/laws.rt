//! What is true of the files that replacing leaves, as public functions without a body whose clause is the law.
ghost use Rattle.file_replacing.specs.Replacing.{OthersStay};

use pkg_world::writing_sets_one_path;

/// Each path that is not replaced, and lies above no file that is, holds what it held.
pub fn others_stay()
    ensures { OthersStay }
{
    writing_sets_one_path();
}
