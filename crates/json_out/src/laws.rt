//! Laws of the definitions, over lists alone.
ghost use Rattle.json_out.specs.Laws.{LineMeansMessage};

/// What a line is read as is what the escaping of lines says that it means.
pub fn lines()
    ensures { LineMeansMessage }
{}
