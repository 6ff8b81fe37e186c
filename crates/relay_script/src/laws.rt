//! Laws of the lines of a script, whoever reads or writes them.
ghost use Rattle.relay_script.specs.Text.{TextTellsOctets};
ghost use Rattle.relay_script.specs.Line.{TextTellsLine};

/// A text spells one row of octets at most.
pub fn text_tells_octets()
    ensures { TextTellsOctets }
{}

/// A text spells one line at most.
pub fn text_tells_line()
    ensures { TextTellsLine }
{}
