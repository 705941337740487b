//! Laws of dumps. The functions do nothing: what each states is its contract.

ghost use Rattle.trace_tool.specs.Stretch.{StretchesAre};
ghost use Rattle.trace_tool.specs.DumpReading.{BitsComeBack, CodesDiffer, CommandsComeBack};

/// Each net is in one variable, whose bits adjoin, and those of two variables do not.
pub fn variables_are_stretches()
    ensures { StretchesAre }
{}

/// A reader of a dump gets the commands of the run from the bytes after the declarations.
pub fn commands_come_back()
    ensures { CommandsComeBack }
{}

/// From the commands it finds every bit of the run at its tick.
pub fn bits_come_back()
    ensures { BitsComeBack }
{}

/// No two variables have one code.
pub fn codes_differ()
    ensures { CodesDiffer }
{}
