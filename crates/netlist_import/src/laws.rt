//! Laws of the macros that a netlist becomes. The functions do nothing: what each states is its
//! contract.

ghost use Rattle.netlist_import.specs.Good.{BitsAreToldApart, CellsDeclareWords, MacrosAreNamed, ModulesDeclareOnce, ModulesDeclareWords, NamesTellBitsApart};

/// The macros of a netlist have names that are words and no primitives, and no two have one.
pub fn macros_are_named()
    ensures { MacrosAreNamed }
{}

/// The macro that a module becomes declares no label and no port twice.
pub fn modules_declare_once()
    ensures { ModulesDeclareOnce }
{}

/// The labels and the ports of the macro that a module becomes are words that are not reserved.
pub fn modules_declare_words()
    ensures { ModulesDeclareWords }
{}

/// The ports of a macro that `import cells` writes are words that are not reserved.
pub fn cells_declare_words()
    ensures { CellsDeclareWords }
{}

/// Two bits in the connections of a module's cells are called by one bit of one net exactly if they
/// are one number.
pub fn bits_are_told_apart()
    ensures { BitsAreToldApart }
{}

/// Two bits in the connections of a module's cells have one name and index exactly if they are one
/// number.
pub fn names_tell_bits_apart()
    ensures { NamesTellBitsApart }
{}
