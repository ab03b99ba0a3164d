//! Laws on the definitions.
ghost use Rattle.depot_hash.specs.Laws.{ChecksumGoesOn, OneTextOnePath};

/// The checksum of bytes that is started with the checksum of those before them is the checksum of them all.
pub fn checksum_goes_on()
    ensures { ChecksumGoesOn }
{}

/// Two paths with one text are one path.
pub fn one_text_one_path()
    ensures { OneTextOnePath }
{}
