// What holds of pictures.
ghost use Rattle.flow_picture.specs.Laws.{FirstBytesAreEnough, ObjectsAreShown, ProgramsHavePictures};

/// One byte more than a text may have is enough: what those bytes come to, the whole text comes to.
pub fn first_bytes_are_enough()
    ensures { FirstBytesAreEnough }
{}

/// Each well formed program of at most 2^25 slots has a picture, whatever faults it is to show and however many objects
/// would be shown. It does nothing.
pub fn programs_have_pictures()
    ensures { ProgramsHavePictures }
{}

/// Where at most 2,000 objects would be shown all are, and else exactly those of them that may hold secrets. It does
/// nothing.
pub fn objects_are_shown()
    ensures { ObjectsAreShown }
{}
