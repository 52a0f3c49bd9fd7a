ghost use Rattle.walk.specs.Sessions.{PartsJoin, CountsLines};
ghost use Rattle.walk.specs.Verdicts.{JudgedByKept};

// Where the input is cut into parts makes no difference.
pub(crate) fn parts_join()
    ensures { PartsJoin }
{}

// A line is judged by the bytes that are kept of it as it is by all.
pub(crate) fn kept_bytes_suffice()
    ensures { JudgedByKept }
{}

// A session counts exactly the lines of its input.
pub(crate) fn lines_are_counted()
    ensures { CountsLines }
{}
