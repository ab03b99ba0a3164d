//! Laws of standard libraries, each a call that does nothing and says the law.
ghost use Rattle.standard_libraries.specs.Consulted.{LibrariesRestOnFiles};
ghost use Rattle.standard_libraries.specs.Laws.{FirstFolderCounts};

/// Of several folders of one identifier the first by name counts.
pub fn first_folder_counts()
    ensures { FirstFolderCounts }
{}

/// Where files have the same folders of libraries and hold the same at their project files, the libraries are the same.
pub fn libraries_rest_on_files()
    ensures { LibrariesRestOnFiles }
{}
