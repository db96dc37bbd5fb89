// What a frame's words and pointers say of its blocks. The functions do nothing; their contracts are the laws.
ghost use Rattle.machine_memory.specs.Laws.{BlocksHaveShapes, ConstantsStand, FramesFit, PointersStandForCells, WordsStandForCells};

/// A frame has a word for each of its layout's, and an entry for each pointer.
pub fn frames_fit()
    ensures { FramesFit }
{}

/// A word of an integer is what stands in its cell.
pub fn words_stand_for_cells()
    ensures { WordsStandForCells }
{}

/// An entry of a pointer is what stands in its cell.
pub fn pointers_stand_for_cells()
    ensures { PointersStandForCells }
{}

/// A constant's word is the constant.
pub fn constants_stand()
    ensures { ConstantsStand }
{}

/// A variable's block has the types of its shape and as many cells.
pub fn blocks_have_shapes()
    ensures { BlocksHaveShapes }
{}
