//! How many ticks a run may have.

ghost use Rattle.std.specs.Prelude.{◌≡◌, ◌≤◌};
ghost use Rattle.trace_tool.specs.declared.extent.Extent.TheVariants.{Long};
ghost use Rattle.trace_tool.specs.Extent.{most_ticks};

/// How many ticks a run may have, whether it is drawn or judged.
#[derive(Clone, Copy, PartialEq, Eq, Debug)]
pub enum Extent {
    /// At most 4,096.
    Short,
    /// At most 1,048,576: the word `long` asks for it.
    Long,
}

impl Extent {
    /// The most ticks.
    pub fn most_ticks(self) -> u32
        ensures is { result ≡ most_ticks self }
        ensures few { result ≤ most_ticks Long }
    {
        match self {
            Extent::Short => 4096,
            Extent::Long => 1_048_576,
        }
    }
}
