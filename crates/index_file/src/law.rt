// What a whole file is.
ghost use Rattle.index_file.specs.Files.{WholeFile};

// Its contract says that a file written by any accepted calls is exactly its records.
pub fn file_is_its_records()
    ensures law { WholeFile }
{}
