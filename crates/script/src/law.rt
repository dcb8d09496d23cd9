ghost use Rattle.script.specs.Spelling.{LinesStand};

// Carries the law of the lines: a line is read as a call exactly if it spells it, a call's own line is read back as it,
// and an answer is printed as one line.
pub fn lines_stand()
    ensures { LinesStand }
{}
